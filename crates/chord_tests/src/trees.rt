//! chord_tree: the walk over a program of two classes, as a tree by hand, and the law of walks.

ghost use Rattle.std.specs.Prelude.{◌≡◌};
ghost use Rattle.chord_tree.specs.Walk.{spots};
ghost use Rattle.chord_tests.specs.Example.{example};
ghost use Rattle.chord_tests.specs.Walked.{class_number, with_local, example_spots};

use chord_tree::laws::walks;

// The walk comes by each expression, item and member of the program once, after its parts; no `if` and no `while` is among them.
fn walk_of_the_example()
    ensures { spots with_local class_number example ≡ example_spots }
{}

#[test]
fn a_program_is_walked_in_its_order() {
    walk_of_the_example();
    walks::<u32, u32>();
}
