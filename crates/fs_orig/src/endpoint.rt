//! What the endpoint of a leg comes to.

ghost use Rattle.std.specs.Prelude.{◌≡◌, IfOk};
ghost use Rattle.fs_orig.specs.Endpoints as spec;

use fs_text::{Cause, Memory, Txt, cut_at, is_short};
use std::alloc::Global;

/// What the endpoint of a leg comes to, as far as its text says.
#[derive(Drop)]
pub enum Endpoint {
    /// A pair of channels of the loopback: the far end is routed to an extension of a context, in the dialplan `XML`.
    /// The extension is not empty, and each text has at most 256 bytes.
    Loopback { exten: Txt, context: Txt },
    /// No channel can be made of it, for this cause.
    Dead { cause: Cause },
}

impl Endpoint {
    /// The endpoint that a text is: `error/CAUSE` or `loopback/EXTENSION/CONTEXT/DIALPLAN`.
    ///
    /// In this order it is dead: by the cause whose name is all that stands behind `error/`, or by NORMAL_UNSPECIFIED
    /// where there is no such cause; by DESTINATION_OUT_OF_ORDER where it is of another kind; by INVALID_NUMBER_FORMAT
    /// where its extension is empty or a part has over 256 bytes; by NO_ROUTE_DESTINATION where it names another
    /// dialplan than `XML`. A context that it does not name is `default`.
    #[tactic(auto, unfolding(crate::specs::Endpoints::endpoint_of))]
    pub fn of(alloc: Global, text: &[u8]) -> Result<Endpoint, Memory>
        ensures endpoint { IfOk result (λ endpoint. endpoint ≡ spec.endpoint_of text.now) }
        ensures short { IfOk result spec.IsShortEndpoint }
    {
        let (kind, parts) = cut_at(b'/', text);
        if kind == b"error".as_slice() {
            Ok(error_of(parts))
        } else if kind == b"loopback".as_slice() {
            loopback_of(alloc, parts)
        } else {
            Ok(Endpoint::Dead {
                cause: Cause::DestinationOutOfOrder,
            })
        }
    }
}

// The endpoint `error` with the name of a cause.
fn error_of(name: &[u8]) -> Endpoint
    ensures { result ≡ spec.error_of name.now }
{
    Endpoint::Dead {
        cause: Cause::of_name(name).unwrap_or(Cause::NormalUnspecified),
    }
}

// The endpoint `loopback` with the parts behind its kind.
fn loopback_of(alloc: Global, parts: &[u8]) -> Result<Endpoint, Memory>
    ensures endpoint { IfOk result (λ endpoint. endpoint ≡ spec.loopback_of parts.now) }
    ensures short { IfOk result spec.IsShortEndpoint }
{
    let (exten, behind) = cut_at(b'/', parts);
    let (context, dialplan) = cut_at(b'/', behind);
    loopback_to(alloc, exten, context, dialplan)
}

// The endpoint `loopback` of an extension.
#[tactic(auto, using(crate::proofs::EndpointLemmas::part_or_short))]
fn loopback_to(
    alloc: Global,
    exten: &[u8],
    context: &[u8],
    dialplan: &[u8],
) -> Result<Endpoint, Memory>
    ensures endpoint { IfOk result (λ endpoint. endpoint ≡ spec.loopback_to exten.now context.now dialplan.now) }
    ensures short { IfOk result spec.IsShortEndpoint }
{
    if exten.is_empty() || !is_short(exten) || !is_short(context) || !is_short(dialplan) {
        return Ok(Endpoint::Dead {
            cause: Cause::InvalidNumberFormat,
        });
    }
    if part_or(b"XML", dialplan) != b"XML".as_slice() {
        return Ok(Endpoint::Dead {
            cause: Cause::NoRouteDestination,
        });
    }
    Ok(Endpoint::Loopback {
        exten: Txt::of(alloc, exten)?,
        context: Txt::of(alloc, part_or(b"default", context))?,
    })
}

// A part, or another text where it is empty.
fn part_or<'a>(otherwise: &'a [u8], part: &'a [u8]) -> &'a [u8]
    ensures { result.now ≡ spec.part_or otherwise.entry.now part.entry.now }
{
    if part.is_empty() { otherwise } else { part }
}
