//! Resolved bodies of members.
#![tactic(auto)]

ghost use Rattle.std.specs.Prelude.{◌+◌, ◌<◌, ◌^◌, vec_len};

use crate::chain::{last_operator, last_result, operator_type, type_at};
use crate::expr::Expr;
use crate::stmt::Stmt;
use chord_base::static_type::StaticType;

/// The body of a member: the class of its text, the types of its slots, and the type of its value, if one is due.
///
/// Slot 0 is `this`. Then come the parameters and the locals, in the order of the text; there are fewer than 2^32 slots.
#[derive(Drop)]
pub struct Body {
    pub class: u32,
    pub is_main: bool,
    pub is_constructor: bool,
    pub parameters: Vec<StaticType>,
    pub locals: Vec<StaticType>,
    pub result: Option<StaticType>,
    pub stmts: Vec<Stmt>,
    pub ghost few: { 1 + vec_len parameters + vec_len locals < 2 ^ 32 },
}

impl Body {
    ghost use Rattle.std.specs.Prelude.{◌≡◌};
    ghost use Rattle.chord_bodies.specs.Resolved.{slots_of};
    ghost use Rattle.chord_bodies.specs.View.{view_expr};
    ghost use Rattle.chord_bodies.specs.BodyView.{view_body};
    ghost use Rattle.chord_bodies.specs.Types.{type_of, slot_type};

    /// How many slots it has.
    pub fn slots(&self) -> u32
        ensures { result ≡ slots_of (view_body self.now) }
    {
        (1 + self.parameters.len() + self.locals.len()) as u32
    }

    /// The type of `this`, which `Main` has not.
    fn this_type(&self) -> Option<StaticType>
        ensures { result ≡ slot_type (view_body self.now) 0 }
    {
        if self.is_main {
            None
        } else {
            Some(StaticType::Class(self.class))
        }
    }

    /// The type of the variable in this slot; None for `this` in `Main`, and where there is no such slot.
    pub fn slot_type(&self, slot: u32) -> Option<StaticType>
        ensures { result ≡ slot_type (view_body self.now) slot }
    {
        if slot == 0 {
            return self.this_type();
        }
        let place = slot as usize - 1;
        let parameters = self.parameters.as_slice();
        if place < parameters.len() {
            type_at(parameters, place)
        } else {
            type_at(&self.locals, place - parameters.len())
        }
    }

    /// The static type of one of its expressions, which its outermost form shows; None where it has no value.
    pub fn type_of(&self, expr: &Expr) -> Option<StaticType>
        ensures { result ≡ type_of (view_body self.now) (view_expr expr.now) }
    {
        match expr {
            Expr::Int(_) => Some(StaticType::Int),
            Expr::Flag(_) => Some(StaticType::Bool),
            Expr::Text(_) => Some(StaticType::Text),
            Expr::Load(slot) => self.slot_type(*slot),
            Expr::This => self.this_type(),
            Expr::Negate(_) => Some(StaticType::Int),
            Expr::Deny(_) => Some(StaticType::Bool),
            Expr::Chain {
                first: _,
                link,
                more,
            } => Some(operator_type(last_operator(link, more))),
            Expr::New {
                class,
                arguments: _,
            } => Some(StaticType::Class(*class)),
            Expr::Calls {
                first: _,
                call,
                more,
            } => last_result(call, more),
        }
    }
}
