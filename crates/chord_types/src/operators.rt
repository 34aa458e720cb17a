//! The rules at operators, whose operands have been looked at, and the operators that they are resolved to.
#![tactic(auto)]

ghost use Rattle.std.specs.Prelude.{◌≡◌, ◌||◌, cond};
ghost use Rattle.chord_classes.specs.Table.{derives};
ghost use Rattle.chord_tree.specs.Walk as walk;
ghost use Rattle.chord_bodies.specs.Resolved.{ExprOf};
ghost use Rattle.chord_bodies.specs.View.{binary};
ghost use Rattle.chord_classes.specs.Site as sites;
ghost use Rattle.chord_classes.specs.TypedTerms.{MinusTyped, NotTyped, OperationTyped};
ghost use Rattle.chord_classes.specs.TypeRules.{from_ints, from_bools, sum_of, comparison_type, operator_result};
ghost use Rattle.chord_classes.specs.Typed.{judged};
ghost use Rattle.chord_classes.specs.Resolve.{is_text, applied};
ghost use Rattle.chord_classes.specs.Least.{least};
ghost use Rattle.chord_classes.specs.AllNotes.{typed_term_keys};

use chord_base::operation::Operation;
use chord_base::static_type::StaticType;
use chord_bodies::expr::BinaryOperator;
use chord_classes::least::Least;
use chord_classes::table::Table;
use chord_tree::exprs::Operator;

/// A result of this type, of two ints.
fn from_ints(result_type: StaticType, left: StaticType, right: StaticType) -> Option<StaticType>
    ensures { result ≡ from_ints result_type left right }
{
    match (left, right) {
        (StaticType::Int, StaticType::Int) => Some(result_type),
        _ => None,
    }
}

/// A bool, of two bools.
fn from_bools(left: StaticType, right: StaticType) -> Option<StaticType>
    ensures { result ≡ from_bools left right }
{
    match (left, right) {
        (StaticType::Bool, StaticType::Bool) => Some(StaticType::Bool),
        _ => None,
    }
}

/// The type of a sum, or of a joined text.
fn sum_of(left: StaticType, right: StaticType) -> Option<StaticType>
    ensures { result ≡ sum_of left right }
{
    match (left, right) {
        (StaticType::Int, StaticType::Int) => Some(StaticType::Int),
        (StaticType::Text, StaticType::Text) => Some(StaticType::Text),
        (StaticType::Text, StaticType::Int) => Some(StaticType::Text),
        (StaticType::Text, StaticType::Bool) => Some(StaticType::Text),
        (StaticType::Int, StaticType::Text) => Some(StaticType::Text),
        (StaticType::Bool, StaticType::Text) => Some(StaticType::Text),
        _ => None,
    }
}

/// Whether one of two classes is the other, or derives from it.
fn are_related(table: &Table, left: u32, right: u32) -> bool
    ensures { result ≡ (derives table.now left right || derives table.now right left) }
{
    if table.derives(left, right) {
        true
    } else {
        table.derives(right, left)
    }
}

/// The type of a comparison, where two values can be compared.
fn comparison_type(table: &Table, left: StaticType, right: StaticType) -> Option<StaticType>
    ensures { result ≡ comparison_type table.now left right }
{
    let comparable = match (left, right) {
        (StaticType::Int, StaticType::Int) => true,
        (StaticType::Bool, StaticType::Bool) => true,
        (StaticType::Text, StaticType::Text) => true,
        (StaticType::Class(left), StaticType::Class(right)) => are_related(table, left, right),
        _ => false,
    };
    if comparable {
        Some(StaticType::Bool)
    } else {
        None
    }
}

/// The type of an operator's result, where its operands fit it.
fn operator_result(
    table: &Table,
    operator: Operator,
    left: StaticType,
    right: StaticType,
) -> Option<StaticType>
    ensures { result ≡ operator_result table.now operator left right }
{
    match operator {
        Operator::Or | Operator::And => from_bools(left, right),
        Operator::Equal | Operator::NotEqual => comparison_type(table, left, right),
        Operator::Less | Operator::Greater | Operator::LessOrEqual | Operator::GreaterOrEqual =>
            from_ints(StaticType::Bool, left, right),
        Operator::Plus => sum_of(left, right),
        Operator::Minus | Operator::Times | Operator::Divide | Operator::Remainder => {
            from_ints(StaticType::Int, left, right)
        }
    }
}

/// Judges an operator with operands of these types.
pub(crate) fn judge_operation(
    table: &Table,
    operator: Operator,
    at: u32,
    left: Option<StaticType>,
    right: Option<StaticType>,
    breaks: &mut Least,
) -> Option<StaticType>
    ensures typed { (site : sites.Site) (role : walk.Role) → site.table ≡ table.now → result ≡ judged site role (OperationTyped operator at left right) }
    ensures noted { (site : sites.Site) (role : walk.Role) → site.table ≡ table.now → breaks.new.found ≡ least breaks.old.found (typed_term_keys site role (OperationTyped operator at left right)) }
{
    match (left, right) {
        (Some(left), Some(right)) => {
            let given = operator_result(table, operator, left, right);
            breaks.note_if(15, given.is_none(), at);
            given
        }
        _ => None,
    }
}

/// Judges `-` with an operand of this type.
pub(crate) fn judge_minus(
    at: u32,
    operand: Option<StaticType>,
    breaks: &mut Least,
) -> Option<StaticType>
    ensures typed { (site : sites.Site) (role : walk.Role) → result ≡ judged site role (MinusTyped at operand) }
    ensures noted { (site : sites.Site) (role : walk.Role) → breaks.new.found ≡ least breaks.old.found (typed_term_keys site role (MinusTyped at operand)) }
{
    match operand {
        None => None,
        Some(StaticType::Int) => Some(StaticType::Int),
        Some(_) => {
            breaks.note(15, at);
            None
        }
    }
}

/// Judges `!` with an operand of this type.
pub(crate) fn judge_not(
    at: u32,
    operand: Option<StaticType>,
    breaks: &mut Least,
) -> Option<StaticType>
    ensures typed { (site : sites.Site) (role : walk.Role) → result ≡ judged site role (NotTyped at operand) }
    ensures noted { (site : sites.Site) (role : walk.Role) → breaks.new.found ≡ least breaks.old.found (typed_term_keys site role (NotTyped at operand)) }
{
    match operand {
        None => None,
        Some(StaticType::Bool) => Some(StaticType::Bool),
        Some(_) => {
            breaks.note(15, at);
            None
        }
    }
}

/// Whether this is the type of texts.
fn is_text(static_type: Option<StaticType>) -> bool
    ensures { result ≡ is_text static_type }
{
    match static_type {
        Some(StaticType::Text) => true,
        _ => false,
    }
}

/// What `+` does with operands of these types.
fn plus(left: Option<StaticType>, right: Option<StaticType>) -> Operation
    ensures { result ≡ cond (is_text left || is_text right) Operation.Join Operation.Add }
{
    if is_text(left) {
        return Operation::Join;
    }
    if is_text(right) {
        Operation::Join
    } else {
        Operation::Add
    }
}

/// What an operator is resolved to, with operands of these types.
pub(crate) fn resolved_operator(
    operator: Operator,
    left: Option<StaticType>,
    right: Option<StaticType>,
) -> BinaryOperator
    ensures { (x y : ExprOf) → binary result x y ≡ applied operator left right x y }
{
    match operator {
        Operator::Or => BinaryOperator::Or,
        Operator::And => BinaryOperator::And,
        Operator::Equal => BinaryOperator::By(Operation::Equal),
        Operator::NotEqual => BinaryOperator::By(Operation::NotEqual),
        Operator::Less => BinaryOperator::By(Operation::Less),
        Operator::Greater => BinaryOperator::By(Operation::Greater),
        Operator::LessOrEqual => BinaryOperator::By(Operation::LessOrEqual),
        Operator::GreaterOrEqual => BinaryOperator::By(Operation::GreaterOrEqual),
        Operator::Plus => BinaryOperator::By(plus(left, right)),
        Operator::Minus => BinaryOperator::By(Operation::Subtract),
        Operator::Times => BinaryOperator::By(Operation::Multiply),
        Operator::Divide => BinaryOperator::By(Operation::Divide),
        Operator::Remainder => BinaryOperator::By(Operation::Remainder),
    }
}
