//! The play of a whole connection.

ghost use Rattle.std.specs.Prelude.{◌≡◌, [], IsTrue};
ghost use Rattle.fs_conn.specs.Filed.{file_view};
ghost use Rattle.fs_conn.specs.Loads.{LoadsBy};
ghost use Rattle.fs_conn.specs.Play.{noted};
ghost use Rattle.fs_conn.specs.Turns.{Plays};

use crate::end::End;
use crate::file::ConfigFile;
use crate::playing::Play;
use crate::unsent::Unsent;
use crate::wire::Wire;
use fs_machine::Machine;
use fs_ports::{Files, Link};
use fs_text::{Memory, Txt};
use std::alloc::Global;

/// Plays a whole connection over a link: it comes, its commands are read, worked and answered, and it goes.
///
/// The clock is the play's own. It begins at 0, and goes on only while the connection is owed a reply. A job that waits
/// for a load gets one of the file of this name, by which the switch was configured.
pub fn play<L: Link, F: Files>(
    alloc: Global,
    machine: &mut Machine,
    link: &mut L,
    files: &mut F,
    name: &Txt,
) -> End
    requires waits { IsTrue (L.input link.old).waits }
    requires begun { machine.old.journal ≡ [] }
    ensures config { machine.new.config ≡ machine.old.config }
    ensures plays { Plays machine.old.config (noted machine.new.journal) (L.input link.old) (L.output link.old)
        (L.input link.new) (L.output link.new) machine.new.journal result }
    ensures loads { LoadsBy result
        (file_view (F.loads files.old name.now) (F.counts files.old) (F.sizes files.old))
        (file_view (F.loads files.new name.now) (F.counts files.new) (F.sizes files.new))
        (noted machine.new.journal) }
{
    let unsent = match Unsent::new(alloc) {
        Ok(unsent) => unsent,
        Err(Memory) => return End::Memory,
    };
    let wire = Wire { unsent, link };
    let file = ConfigFile { files, name };
    let mut play = Play {
        alloc,
        machine,
        clock: 0,
        wire,
        file,
    };
    let end = play.whole();
    let Play {
        machine: _machine,
        wire,
        file: ConfigFile {
            files: _files,
            name: _name,
        },
        ..
    } = play;
    let Wire {
        link: _link,
        unsent: _unsent,
    } = wire;
    end
}
