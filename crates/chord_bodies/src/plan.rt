//! The plan of a program: the methods, the effective chords and the constructor of each class, by their numbers.
#![tactic(auto)]

use chord_base::text::Text;
use std::marker::Model;

/// A method of a class: its name, whether its callers wait, and how many parameters it has.
#[derive(Drop)]
pub struct MethodPlan {
    pub name: Text,
    pub is_sync: bool,
    pub parameters: u32,
}

/// An effective chord: the member that is its body, and the numbers of its methods in header order.
#[derive(Drop)]
pub struct ChordPlan {
    pub body: u32,
    pub methods: Vec<u32>,
}

/// A class: its methods, the inherited ones first; its effective chords; the members that are bodies of its own chords; and its own constructor's member.
#[derive(Drop)]
pub struct ClassPlan {
    pub name: Text,
    pub base: Option<u32>,
    pub methods: Vec<MethodPlan>,
    pub chords: Vec<ChordPlan>,
    pub own: Vec<u32>,
    pub constructor_body: Option<u32>,
}

/// The plan of a program: its classes by number, and the member that is `Main`.
#[derive(Drop)]
pub struct Layout {
    classes: Vec<ClassPlan>,
    main: u32,
}

impl Model for Layout {
    ghost use Rattle.std.specs.Prelude.{map};
    ghost use Rattle.chord_bodies.specs.Resolved.{LayoutOf};
    ghost use Rattle.chord_bodies.specs.View.{view_class_plan};

    ghost Value = { LayoutOf };

    ghost view = { λ l. record { classes = map view_class_plan l.classes.items; main = l.main } };
}

impl Layout {
    ghost use Rattle.std.specs.Prelude.{◌≡◌, map};
    ghost use Rattle.chord_bodies.specs.View.{view_class_plan};

    /// The plan of these classes, where `main` is the member that is `Main`.
    pub fn new(classes: Vec<ClassPlan>, main: u32) -> Layout
        ensures { result ≡ record { classes = map view_class_plan classes.items; main = main } }
    {
        Layout { classes, main }
    }

    /// The classes, by number.
    pub fn classes(&self) -> &[ClassPlan]
        ensures { map view_class_plan result.now ≡ self.now.classes }
    {
        self.classes.as_slice()
    }

    /// The member that is `Main`.
    pub fn main(&self) -> u32
        ensures { result ≡ self.now.main }
    {
        self.main
    }
}
