//! What a body asks.
#![tactic(auto)]

ghost use Rattle.std.specs.Prelude.{◌≡◌, Some, None};

use chord_base::event::End;
use chord_base::text::Text;
use chord_base::value::{Object, Values};
use std::mem;

/// The next entry of a body, before it has a number.
#[derive(Drop)]
pub enum Ask {
    /// To make an object of this class.
    Make(u16),
    /// To send this method of the object, with its arguments.
    Send(Object, u8, Values),
    /// To call this method of the object, with its arguments.
    Call(Object, u8, Values),
    /// To print a line.
    Print(Text),
    /// To end.
    End(End),
}

/// Drops the ask that stands at a place.
#[inline(never)]
fn drop_old(asked: &mut Option<Ask>)
    ensures { asked.new ≡ None }
{
    *asked = None;
}

/// Makes a place empty. A drop looks at each kind of ask, so it stands in a function of its own, which is not called where the place is empty.
#[inline(always)]
pub(crate) fn clear_ask(asked: &mut Option<Ask>)
    ensures { asked.new ≡ None }
{
    match asked {
        None => {}
        Some(_) => drop_old(asked),
    }
}

/// Puts an ask where there is none. The empty place is forgotten, since an assignment would look for what to drop.
#[inline(always)]
pub(crate) fn put_ask(asked: &mut Option<Ask>, ask: Ask)
    requires empty { asked.old ≡ None }
    ensures { asked.new ≡ Some ask }
{
    mem::forget(mem::replace(asked, Some(ask)));
}
