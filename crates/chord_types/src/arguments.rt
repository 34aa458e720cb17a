//! Whether values fit where they stand, and arguments their parameters.
#![tactic(auto)]

ghost use Rattle.std.specs.Prelude.{◌≡◌, length, nat_eq, map, Some};
ghost use Rattle.chord_bodies.specs.Types.{fits, prints};
ghost use Rattle.chord_classes.specs.Table.{formal_types};
ghost use Rattle.chord_classes.specs.Types.{signatures};
ghost use Rattle.chord_classes.specs.TypedTerms.{all_typed};
ghost use Rattle.chord_classes.specs.TypeRules.{misfit, misfits, misfits_for, unprintable};
ghost use Rattle.chord_classes.specs.Typed.{is_nil};
ghost use Rattle.chord_classes.specs.Least.{keys, least};
ghost use Rattle.chord_types.specs.Views.{see_passed};

use crate::site::Passed;
use chord_base::static_type::StaticType;
use chord_classes::least::Least;
use chord_classes::table::Table;
use chord_tree::classes::Formal;

/// Whether a value of a type may stand where another is wanted.
pub(crate) fn fits(table: &Table, from: StaticType, to: StaticType) -> bool
    ensures { result ≡ fits (signatures table.now) from to }
{
    match (from, to) {
        (StaticType::Int, StaticType::Int) => true,
        (StaticType::Bool, StaticType::Bool) => true,
        (StaticType::Text, StaticType::Text) => true,
        (StaticType::Class(class), StaticType::Class(base)) => table.derives(class, base),
        _ => false,
    }
}

/// Notes a value that does not fit, where both types are there. Whether it fits.
pub(crate) fn fit(
    table: &Table,
    wanted: Option<StaticType>,
    value: Option<StaticType>,
    at: u32,
    breaks: &mut Least,
) -> bool
    ensures sound { result ≡ is_nil (misfit table.now wanted value at) }
    ensures noted { breaks.new.found ≡ least breaks.old.found (keys 15 (misfit table.now wanted value at)) }
{
    match (wanted, value) {
        (Some(wanted), Some(value)) => {
            let good = fits(table, value, wanted);
            breaks.note_if(15, !good, at);
            good
        }
        _ => true,
    }
}

/// Notes the arguments that do not fit their parameters. Whether all fit.
fn fit_all(table: &Table, formals: &[Formal], actuals: &[Passed], breaks: &mut Least) -> bool
    requires { length formals.now ≡ length actuals.now }
    ensures sound { result ≡ is_nil (misfits table.now (formal_types formals.now) (map see_passed actuals.now)) }
    ensures noted { breaks.new.found ≡ least breaks.old.found (keys 15 (misfits table.now (formal_types formals.now) (map see_passed actuals.now))) }
{
    let mut good = true;
    let mut i = 0;
    for formal in formals {
        let actual = actuals[i];
        let wanted = table.written(&formal.value_type);
        if !fit(table, wanted, actual.static_type, actual.first, breaks) {
            good = false;
        }
        i += 1;
    }
    good
}

/// Whether there are as many arguments as parameters.
pub(crate) fn counts(formals: &[Formal], actuals: &[Passed]) -> bool
    ensures { result ≡ nat_eq (length (map see_passed actuals.now)) (length (formal_types formals.now)) }
{
    actuals.len() == formals.len()
}

/// Notes the arguments that do not fit their parameters, where their number is right. Whether all fit.
pub(crate) fn fit_counted(
    table: &Table,
    formals: &[Formal],
    actuals: &[Passed],
    breaks: &mut Least,
) -> bool
    ensures sound { result ≡ is_nil (misfits_for table.now (Some (formal_types formals.now)) (map see_passed actuals.now)) }
    ensures noted { breaks.new.found ≡ least breaks.old.found (keys 15 (misfits_for table.now (Some (formal_types formals.now)) (map see_passed actuals.now))) }
{
    if actuals.len() == formals.len() {
        fit_all(table, formals, actuals, breaks)
    } else {
        true
    }
}

/// Whether all arguments have types.
pub(crate) fn all_typed(actuals: &[Passed]) -> bool
    ensures { result ≡ all_typed (map see_passed actuals.now) }
{
    for actual in actuals {
        if actual.static_type.is_none() {
            return false;
        }
    }
    true
}

/// Whether a value of this type can be printed.
fn prints(static_type: StaticType) -> bool
    ensures { result ≡ prints static_type }
{
    match static_type {
        StaticType::Class(_) => false,
        _ => true,
    }
}

/// Notes an argument of `WriteLine` that cannot be printed.
pub(crate) fn print_fits(actuals: &[Passed], breaks: &mut Least)
    ensures { breaks.new.found ≡ least breaks.old.found (keys 15 (unprintable (map see_passed actuals.now))) }
{
    if let [actual] = actuals {
        if let Some(static_type) = actual.static_type {
            breaks.note_if(15, !prints(static_type), actual.first);
        }
    }
}
