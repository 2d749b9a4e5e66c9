//! How commands are to be written.

ghost use Rattle.std.specs.Prelude.{◌≡◌};
ghost use Rattle.fs_api.specs.Usages.{usage_of};

/// An api command that needs words which can be missing.
#[derive(Clone, Copy, Debug, PartialEq, Eq)]
pub enum Which {
    Expand,
    Fsctl,
    GlobalSetvar,
    Msleep,
    Originate,
    UuidBridge,
    UuidDump,
    UuidExists,
    UuidGetvar,
    UuidKill,
    UuidPark,
    UuidSetvar,
    UuidTransfer,
}

/// How an api command is to be written, behind its name.
#[tactic(auto, unfolding(crate::specs::Usages::usage_of))]
pub fn usage(which: Which) -> &'static str
    ensures { result.now ≡ usage_of which }
{
    match which {
        Which::Expand => "[uuid:U ]text*",
        Which::Fsctl => "shutdown",
        Which::GlobalSetvar => "<name>=<value>",
        Which::Msleep => "<milliseconds>",
        Which::Originate => {
            "<call url> <exten>|&<app>(<args>) [dialplan] [context] [cid_name] [cid_num] [timeout]"
        }
        Which::UuidBridge => "<uuid> <other_uuid>",
        Which::UuidDump => "<uuid>",
        Which::UuidExists => "<uuid>",
        Which::UuidGetvar => "<uuid> <name>",
        Which::UuidKill => "<uuid> [cause]",
        Which::UuidPark => "<uuid>",
        Which::UuidSetvar => "<uuid> <name> [value*]",
        Which::UuidTransfer => "<uuid> [-both|-bleg] <exten> [dialplan] [context]",
    }
}
