//! How the text of an api command is read.

ghost use Rattle.std.specs.Prelude.{◌≡◌, IfOk, option_map};
ghost use Rattle.fs_text.specs.Words.{behind_byte, word_of, behind_word};
ghost use Rattle.fs_api.specs.Ranges.{IsInRange};
ghost use Rattle.fs_api.specs.Readings as spec;
ghost use Rattle.fs_api.specs.declared.api.Api.TheVariants as variant;
ghost use Rattle.fs_api.specs.declared.usages.Which.TheVariants as which;

use crate::api::Api;
use crate::originate::originate_of;
use crate::transfers::uuid_transfer_of;
use crate::usages::Which;
use fs_text::{Cause, Memory, Txt, cut_at, cut_word, read_u64, without_spaces};
use std::alloc::Global;

/// The most milliseconds that `msleep` takes: an hour.
const LONGEST_SLEEP: u64 = 3_600_000;

impl Api {
    /// The api command that a text is, as FreeSWITCH's mod_commands has them.
    ///
    /// Words are separated by runs of spaces. What is no command is `Unknown`, and a command whose words are missing or
    /// out of their form is `Usage`.
    pub fn of(alloc: Global, text: &[u8]) -> Result<Api, Memory>
        ensures api { IfOk result (λ api. api ≡ spec.api_of text.now) }
        ensures range { IfOk result IsInRange }
    {
        let (name, arguments) = cut_word(without_spaces(text));
        named(alloc, name, arguments)
    }

    /// The api command that a text is which `expand` gave: the same, but that `expand` is then no command.
    pub fn of_expanded(alloc: Global, text: &[u8]) -> Result<Api, Memory>
        ensures api { IfOk result (λ api. api ≡ spec.expanded_api_of text.now) }
        ensures range { IfOk result IsInRange }
    {
        let api = Api::of(alloc, text)?;
        match &api {
            Api::Expand { .. } | Api::Usage(Which::Expand) => {
                Ok(Api::Unknown(Txt::of(alloc, b"expand")?))
            }
            _ => Ok(api),
        }
    }
}

/// What a text is answered that is the command `echo`: its arguments, without a copy of them.
pub fn echoed(text: &[u8]) -> Option<&[u8]>
    ensures { option_map (λ t. t.now) result ≡ spec.echoed text.now }
{
    match cut_word(without_spaces(text)) {
        (b"echo", arguments) => Some(arguments),
        _ => None,
    }
}

// The api command of a name with these arguments.
#[tactic(auto, unfolding(crate::specs::Readings::api_named))]
fn named(alloc: Global, name: &[u8], arguments: &[u8]) -> Result<Api, Memory>
    ensures { IfOk result (λ api. api ≡ spec.api_named name.now arguments.now) }
{
    if name == b"echo".as_slice() {
        let text = Txt::of(alloc, arguments)?;
        Ok(Api::Echo { text })
    } else if name == b"expand".as_slice() {
        expand_of(alloc, arguments)
    } else if name == b"create_uuid".as_slice() {
        Ok(Api::CreateUuid)
    } else if name == b"fsctl".as_slice() {
        Ok(fsctl_of(arguments))
    } else if name == b"global_getvar".as_slice() {
        global_getvar_of(alloc, arguments)
    } else if name == b"global_setvar".as_slice() {
        global_setvar_of(alloc, arguments)
    } else if name == b"hupall".as_slice() {
        Ok(hupall_of(arguments))
    } else if name == b"msleep".as_slice() {
        Ok(msleep_of(arguments))
    } else if name == b"originate".as_slice() {
        originate_of(alloc, arguments)
    } else if name == b"reloadxml".as_slice() {
        Ok(Api::Reloadxml)
    } else if name == b"uuid_bridge".as_slice() {
        uuid_bridge_of(alloc, arguments)
    } else if name == b"uuid_dump".as_slice() {
        uuid_dump_of(alloc, arguments)
    } else if name == b"uuid_exists".as_slice() {
        uuid_exists_of(alloc, arguments)
    } else if name == b"uuid_getvar".as_slice() {
        uuid_getvar_of(alloc, arguments)
    } else if name == b"uuid_kill".as_slice() {
        uuid_kill_of(alloc, arguments)
    } else if name == b"uuid_park".as_slice() {
        uuid_park_of(alloc, arguments)
    } else if name == b"uuid_setvar".as_slice() {
        uuid_setvar_of(alloc, arguments)
    } else if name == b"uuid_transfer".as_slice() {
        uuid_transfer_of(alloc, arguments)
    } else {
        Ok(Api::Unknown(Txt::of(alloc, name)?))
    }
}

fn expand_of(alloc: Global, arguments: &[u8]) -> Result<Api, Memory>
    ensures { IfOk result (λ api. api ≡ spec.needs which.Expand spec.expand_of arguments.now) }
{
    if arguments.is_empty() {
        return Ok(Api::Usage(Which::Expand));
    }
    if names_channel(arguments) {
        return expand_over(alloc, arguments);
    }
    let text = Txt::of(alloc, arguments)?;
    Ok(Api::Expand { uuid: None, text })
}

// Whether the first word is `uuid:` and an identifier, and a space stands behind it.
fn names_channel(arguments: &[u8]) -> bool
    ensures { result ≡ spec.names_channel arguments.now }
{
    let (word, _) = cut_word(arguments);
    let (name, _) = cut_at(b':', word);
    name == b"uuid".as_slice() && name.len() < word.len() && word.len() < arguments.len()
}

// A text behind the identifier of a channel.
fn expand_over(alloc: Global, arguments: &[u8]) -> Result<Api, Memory>
    ensures { IfOk result (λ api. api
        ≡ spec.expand_over (behind_byte 58 (word_of arguments.now)) (behind_word arguments.now)) }
{
    let (word, text) = cut_word(arguments);
    if text.is_empty() {
        return Ok(Api::Usage(Which::Expand));
    }
    let (_, uuid) = cut_at(b':', word);
    let uuid = Some(Txt::of(alloc, uuid)?);
    let text = Txt::of(alloc, text)?;
    Ok(Api::Expand { uuid, text })
}

fn fsctl_of(arguments: &[u8]) -> Api
    ensures { result ≡ spec.fsctl_of arguments.now }
{
    let (word, behind) = cut_word(arguments);
    if word == b"shutdown".as_slice() && behind.is_empty() {
        Api::Shutdown
    } else {
        Api::Usage(Which::Fsctl)
    }
}

fn global_getvar_of(alloc: Global, arguments: &[u8]) -> Result<Api, Memory>
    ensures { IfOk result (λ api. api ≡ spec.global_getvar_of arguments.now) }
{
    if arguments.is_empty() {
        return Ok(Api::GlobalGetvar { name: None });
    }
    let (name, _) = cut_word(arguments);
    let name = Some(Txt::of(alloc, name)?);
    Ok(Api::GlobalGetvar { name })
}

fn global_setvar_of(alloc: Global, arguments: &[u8]) -> Result<Api, Memory>
    ensures { IfOk result (λ api. api ≡ spec.needs which.GlobalSetvar spec.global_setvar_of arguments.now) }
{
    if arguments.is_empty() {
        return Ok(Api::Usage(Which::GlobalSetvar));
    }
    let (word, _) = cut_word(arguments);
    let (name, value) = cut_at(b'=', word);
    let name = Txt::of(alloc, name)?;
    let value = Txt::of(alloc, value)?;
    Ok(Api::GlobalSetvar { name, value })
}

fn hupall_of(arguments: &[u8]) -> Api
    ensures { result ≡ spec.hupall_of arguments.now }
{
    if arguments.is_empty() {
        return Api::Hupall {
            cause: Cause::ManagerRequest,
        };
    }
    let (name, _) = cut_word(arguments);
    let cause = Cause::of_name_or_clearing(name);
    Api::Hupall { cause }
}

fn msleep_of(arguments: &[u8]) -> Api
    ensures { result ≡ spec.msleep_of arguments.now }
{
    let (word, _) = cut_word(arguments);
    match read_u64(word) {
        Some(milliseconds) if milliseconds <= LONGEST_SLEEP => Api::Msleep { milliseconds },
        _ => Api::Usage(Which::Msleep),
    }
}

fn uuid_bridge_of(alloc: Global, arguments: &[u8]) -> Result<Api, Memory>
    ensures { IfOk result (λ api. api ≡ spec.needs which.UuidBridge spec.uuid_bridge_of arguments.now) }
{
    let (word, behind) = cut_word(arguments);
    if arguments.is_empty() || behind.is_empty() {
        return Ok(Api::Usage(Which::UuidBridge));
    }
    let (other, _) = cut_word(behind);
    let uuid = Txt::of(alloc, word)?;
    let other = Txt::of(alloc, other)?;
    Ok(Api::UuidBridge { uuid, other })
}

fn uuid_dump_of(alloc: Global, arguments: &[u8]) -> Result<Api, Memory>
    ensures { IfOk result (λ api. api ≡ spec.needs which.UuidDump spec.uuid_dump_of arguments.now) }
{
    if arguments.is_empty() {
        return Ok(Api::Usage(Which::UuidDump));
    }
    let (word, _) = cut_word(arguments);
    let uuid = Txt::of(alloc, word)?;
    Ok(Api::UuidDump { uuid })
}

fn uuid_exists_of(alloc: Global, arguments: &[u8]) -> Result<Api, Memory>
    ensures { IfOk result (λ api. api ≡ spec.needs which.UuidExists spec.uuid_exists_of arguments.now) }
{
    if arguments.is_empty() {
        return Ok(Api::Usage(Which::UuidExists));
    }
    let (word, _) = cut_word(arguments);
    let uuid = Txt::of(alloc, word)?;
    Ok(Api::UuidExists { uuid })
}

fn uuid_getvar_of(alloc: Global, arguments: &[u8]) -> Result<Api, Memory>
    ensures { IfOk result (λ api. api ≡ spec.needs which.UuidGetvar spec.uuid_getvar_of arguments.now) }
{
    let (word, behind) = cut_word(arguments);
    if arguments.is_empty() || behind.is_empty() {
        return Ok(Api::Usage(Which::UuidGetvar));
    }
    let (name, _) = cut_word(behind);
    let uuid = Txt::of(alloc, word)?;
    let name = Txt::of(alloc, name)?;
    Ok(Api::UuidGetvar { uuid, name })
}

fn uuid_kill_of(alloc: Global, arguments: &[u8]) -> Result<Api, Memory>
    ensures { IfOk result (λ api. api ≡ spec.needs which.UuidKill spec.uuid_kill_of arguments.now) }
{
    if arguments.is_empty() {
        return Ok(Api::Usage(Which::UuidKill));
    }
    let (word, behind) = cut_word(arguments);
    let (name, _) = cut_word(behind);
    let uuid = Txt::of(alloc, word)?;
    let cause = Cause::of_name_or_clearing(name);
    Ok(Api::UuidKill { uuid, cause })
}

fn uuid_park_of(alloc: Global, arguments: &[u8]) -> Result<Api, Memory>
    ensures { IfOk result (λ api. api ≡ spec.needs which.UuidPark spec.uuid_park_of arguments.now) }
{
    if arguments.is_empty() {
        return Ok(Api::Usage(Which::UuidPark));
    }
    let (word, _) = cut_word(arguments);
    let uuid = Txt::of(alloc, word)?;
    Ok(Api::UuidPark { uuid })
}

fn uuid_setvar_of(alloc: Global, arguments: &[u8]) -> Result<Api, Memory>
    ensures { IfOk result (λ api. api ≡ spec.needs which.UuidSetvar spec.uuid_setvar_of arguments.now) }
{
    let (word, behind) = cut_word(arguments);
    if arguments.is_empty() || behind.is_empty() {
        return Ok(Api::Usage(Which::UuidSetvar));
    }
    let (name, value) = cut_word(behind);
    let uuid = Txt::of(alloc, word)?;
    let name = Txt::of(alloc, name)?;
    let value = Txt::of(alloc, value)?;
    Ok(Api::UuidSetvar { uuid, name, value })
}
