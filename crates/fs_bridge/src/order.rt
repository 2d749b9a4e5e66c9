//! Things that are told of slots, in order of these.

ghost use Rattle.std.specs.Prelude.{◌≡◌, fold, option_to_list, OnOk};
ghost use Rattle.fs_bridge.specs.Orders as spec;

use fs_text::Memory;

/// Whether one of them is told of the slot.
pub(crate) fn has_slot<T: Copy>(things: &[(u16, T)], slot: u16) -> bool
    ensures { result ≡ spec.has_slot slot things.now }
{
    things.iter().any(|thing| thing.0 == slot)
}

/// Puts one more behind those of lesser slots, where none is told of its slot yet.
#[tactic(auto, unfolding(crate::specs::Orders::placed))]
pub(crate) fn place<T: Copy>(things: &mut Vec<(u16, T)>, thing: (u16, T)) -> Result<(), Memory>
    ensures ok { OnOk result (things.new.items ≡ spec.placed things.old.items thing) }
{
    if has_slot(things, thing.0) {
        return Ok(());
    }
    let lesser = things.iter().filter(|other| other.0 < thing.0).count();
    things.insert(lesser, thing)?;
    Ok(())
}

/// The same, if there is one.
pub(crate) fn place_if<T: Copy>(
    things: &mut Vec<(u16, T)>,
    thing: Option<(u16, T)>,
) -> Result<(), Memory>
    ensures ok { OnOk result (things.new.items ≡ fold spec.placed things.old.items (option_to_list thing)) }
{
    match thing {
        Some(thing) => place(things, thing),
        None => Ok(()),
    }
}
