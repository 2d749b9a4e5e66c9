//! How a variable is exported.
ghost use Rattle.std.specs.Prelude.{◌≡◌, ◌<◌, ◌∷◌, length, IfOk, IfSome, OnOk, OnErr};
ghost use Rattle.std.specs.Prelude.{if◌then◌else◌, unwrap_or};
ghost use Rattle.fs_chan.specs.Exports as spec;

use fs_text::{Memory, split_at_byte};
use fs_vars::Vars;
use std::alloc::Global;

// The variable that has the names of those that are exported.
const EXPORTS: &[u8] = b"export_vars";

/// Sets a variable and puts its name once into `export_vars`, the comma list of those that new legs get.
///
/// Nothing changes where the variable or the list cannot be set. A name that is taken out by its value is listed too.
pub(crate) fn export(
    alloc: Global,
    vars: &mut Vars,
    name: &[u8],
    value: &[u8],
) -> Result<(), Memory>
    ensures ok { OnOk result (vars.new ≡ spec.exported vars.old name.now value.now) }
    ensures err { OnErr result (vars.new ≡ vars.old) }
{
    if let Some(done) = exported(alloc, vars, name, value)? {
        *vars = done;
    }
    Ok(())
}

/// A copy of the variables in which one is set and exported, as [`export`] does, or nothing where that changes nothing.
#[tactic(auto, unfolding(crate::specs::Exports::exported))]
pub(crate) fn exported(
    alloc: Global,
    vars: &Vars,
    name: &[u8],
    value: &[u8],
) -> Result<Option<Vars>, Memory>
    ensures { IfOk result (λ done. unwrap_or done vars.now ≡ spec.exported vars.now name.now value.now) }
{
    let mut done = vars.copy()?;
    if done.set(name, value)? && list_export(alloc, &mut done, name)? {
        return Ok(Some(done));
    }
    Ok(None)
}

/// Puts a name into the list of those that are exported, where it is none of them yet, and says whether it is one now.
fn list_export(alloc: Global, vars: &mut Vars, name: &[u8]) -> Result<bool, Memory>
    ensures answer { IfOk result (λ done. done ≡ spec.can_list vars.old name.now) }
    ensures listed { IfOk result (λ done. vars.new ≡ (if done then spec.with_export vars.old name.now else vars.old)) }
{
    let list = exports(vars);
    if is_listed(name, list) {
        return Ok(true);
    }
    let longer = with_listed(alloc, name, list)?;
    vars.set(EXPORTS, &longer)
}

/// The comma list of the names that are exported.
pub(crate) fn exports(vars: &Vars) -> &[u8]
    ensures { result.now ≡ spec.exports vars.now }
{
    match vars.get(EXPORTS) {
        Some(list) => list.as_bytes(),
        None => &[],
    }
}

/// Whether a name stands in a comma list.
fn is_listed(name: &[u8], list: &[u8]) -> bool
    ensures { result ≡ spec.is_listed name.now list.now }
{
    let mut left = list;
    'names: loop {
        let (listed, behind) = split_at_comma(left);
        if name == listed {
            return true;
        }
        match behind {
            Some(rest) => left = rest,
            None => return false,
        }
    }
}

/// The first name of a comma list, and the list behind its comma, if there is one.
#[tactic(auto, using(crate::proofs::NameLemmas::one_name, crate::proofs::NameLemmas::first_name))]
pub(crate) fn split_at_comma(list: &[u8]) -> (&[u8], Option<&[u8]>)
    ensures names { spec.names_of list.now ≡ result.0.now ∷ spec.names_behind result.1 }
    ensures shorter { IfSome result.1 (λ rest. length rest.now < length list.now) }
{
    match split_at_byte(b',', list) {
        Some((name, rest)) => (name, Some(rest)),
        None => (list, None),
    }
}

/// A comma list with one more name behind its others.
fn with_listed(alloc: Global, name: &[u8], list: &[u8]) -> Result<Vec<u8>, Memory>
    ensures { IfOk result (λ longer. longer.items ≡ spec.with_listed name.now list.now) }
{
    let mut longer = Vec::from_slice(alloc, list)?;
    if !list.is_empty() {
        longer.push(b',')?;
    }
    longer.extend_from_slice(name)?;
    Ok(longer)
}
