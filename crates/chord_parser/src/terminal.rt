//! The numbers of the terminals, and the number that stands for the end of the text. Made by tools/grammar.py.

pub const USING: u8 = 0;

pub const NAME: u8 = 1;

pub const SEMICOLON: u8 = 2;

pub const DOT: u8 = 3;

pub const CLASS: u8 = 4;

pub const OPEN_BRACE: u8 = 5;

pub const CLOSE_BRACE: u8 = 6;

pub const PUBLIC: u8 = 7;

pub const COLON: u8 = 8;

pub const PRIVATE: u8 = 9;

pub const PROTECTED: u8 = 10;

pub const VIRTUAL: u8 = 11;

pub const OVERRIDE: u8 = 12;

pub const STATIC: u8 = 13;

pub const AMPERSAND: u8 = 14;

pub const ASYNC: u8 = 15;

pub const VOID: u8 = 16;

pub const INT: u8 = 17;

pub const BOOL: u8 = 18;

pub const STRING: u8 = 19;

pub const OPEN: u8 = 20;

pub const CLOSE: u8 = 21;

pub const COMMA: u8 = 22;

pub const ASSIGN: u8 = 23;

pub const IF: u8 = 24;

pub const WHILE: u8 = 25;

pub const RETURN: u8 = 26;

pub const THIS: u8 = 27;

pub const NEW: u8 = 28;

pub const ELSE: u8 = 29;

pub const OR: u8 = 30;

pub const AND: u8 = 31;

pub const EQUAL: u8 = 32;

pub const NOT_EQUAL: u8 = 33;

pub const LESS: u8 = 34;

pub const GREATER: u8 = 35;

pub const LESS_OR_EQUAL: u8 = 36;

pub const GREATER_OR_EQUAL: u8 = 37;

pub const PLUS: u8 = 38;

pub const MINUS: u8 = 39;

pub const TIMES: u8 = 40;

pub const DIVIDE: u8 = 41;

pub const REMAINDER: u8 = 42;

pub const NOT: u8 = 43;

pub const NUMBER: u8 = 44;

pub const LITERAL: u8 = 45;

pub const TRUE: u8 = 46;

pub const FALSE: u8 = 47;

pub const DO: u8 = 48;

pub const UNUSED: u8 = 49;

pub const INCREMENT: u8 = 50;

pub const DECREMENT: u8 = 51;

pub const END: u8 = 52;
