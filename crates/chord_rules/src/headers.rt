//! What a header says of its method.
#![tactic(auto)]

ghost use Rattle.std.specs.Prelude.{◌≡◌};
ghost use Rattle.chord_tree.specs.View.{see_header};
ghost use Rattle.chord_classes.specs.Table.{has_word, is_virtual_word};
ghost use Rattle.chord_classes.specs.Types.{is_sync};
ghost use Rattle.chord_classes.specs.OverrideRules.{overrides, virtual_word};
ghost use Rattle.chord_classes.specs.ChordRules.{static_word, counts_sync};

use chord_classes::main_headers::is_main;
use chord_tree::classes::{Header, ModifierKeyword, ReturnType};

/// Whether callers of a method wait.
pub fn is_sync(result_type: &ReturnType) -> bool
    ensures { result ≡ is_sync result_type.now }
{
    match result_type {
        ReturnType::Async { .. } => false,
        _ => true,
    }
}

/// Whether a header is that of a synchronous method; `Main` is no method.
pub fn counts_sync(header: &Header) -> bool
    ensures { result ≡ counts_sync (see_header header.now) }
{
    if is_main(header) {
        return false;
    }
    is_sync(&header.result_type)
}

/// Whether a header has `override`.
pub fn overrides(header: &Header) -> bool
    ensures { result ≡ overrides (see_header header.now) }
{
    for modifier in &header.modifiers {
        if modifier.keyword == ModifierKeyword::Override {
            return true;
        }
    }
    false
}

/// Whether a header has `virtual`.
pub fn is_virtual(header: &Header) -> bool
    ensures { result ≡ has_word virtual_word header.now.modifiers.items }
{
    for modifier in &header.modifiers {
        if modifier.keyword == ModifierKeyword::Virtual {
            return true;
        }
    }
    false
}

/// Whether a header has `virtual` or `override`.
pub fn may_be_overridden(header: &Header) -> bool
    ensures { result ≡ has_word is_virtual_word header.now.modifiers.items }
{
    for modifier in &header.modifiers {
        match modifier.keyword {
            ModifierKeyword::Virtual => return true,
            ModifierKeyword::Override => return true,
            _ => {}
        }
    }
    false
}

/// Whether a header has `static`.
pub fn is_static(header: &Header) -> bool
    ensures { result ≡ has_word static_word header.now.modifiers.items }
{
    for modifier in &header.modifiers {
        if modifier.keyword == ModifierKeyword::Static {
            return true;
        }
    }
    false
}
