//! From the command line to the exit status, over a keeper and a sink that are handed in: what the program does is said here, and `main` adds the real devices alone.
ghost use Rattle.std.specs.Prelude.{◌≡◌, ◌≢◌, ℕ, List, drop, IfOk, IfErr};
ghost use Rattle.std.specs.IoError.{error_kind};
ghost use Rattle.std.specs.Process.{exit_status};
ghost use Rattle.std.specs.Vec.Iter.{into_iter_items};
ghost use Rattle.bvd_host.specs.Files.{Files};
ghost use Rattle.bvd_host.specs.Outside.{outside, CountsStay, IsHonest};
ghost use Rattle.bvd_words.specs.Requests.{request_of};
ghost use Rattle.bvd_top.specs.Ending.{Ending, Does, IsFaultTold};
ghost use Rattle.bvd.specs.Given.{words_given};

use bvd_host::{Keeper, Sink};
use bvd_top::run_single;
use std::alloc::{AllocError, Global};
use std::env::Args;
use std::io;
use std::io::ErrorKind;
use std::process::ExitCode;

/// The words behind the program's name.
fn behind_name(alloc: Global, mut args: Args) -> Result<Vec<String>, AllocError>
    ensures { IfOk result (λ words. words.items ≡ drop 1 (into_iter_items args)) }
{
    let _name = args.next();
    args.collect(alloc)
}

/// Does what the command line asks, and answers the exit status, as `run_single` does for the words behind the program's
/// name. A command line that isn't text is refused, as one without words is.
///
/// Cost: that of `run_single`.
pub fn answer<K: Keeper, S: Sink>(
    alloc: Global,
    args: io::Result<Args>,
    keeper: &mut K,
    out: &mut S,
) -> ExitCode
    // No count falls.
    ensures counts { CountsStay (outside K.files K.faults K.missing S.written S.faults keeper.old out.old) (outside K.files K.faults K.missing S.written S.faults keeper.new out.new) }

    // In every case: how far the run came, by the order of its steps, and why it stopped there.
    ensures ending { Ending (words_given args) (outside K.files K.faults K.missing S.written S.faults keeper.old out.old) (outside K.files K.faults K.missing S.written S.faults keeper.new out.new) (exit_status result) }

    // Where no device fails and both tell what they hold: the report, the certificates and the status, or want of memory.
    ensures done { (files : Files) (text : List ℕ) → IsHonest (outside K.files K.faults K.missing S.written S.faults keeper.old out.old) (outside K.files K.faults K.missing S.written S.faults keeper.new out.new) files text
        → exit_status result ≢ 7 → Does (request_of (words_given args)) files text (outside K.files K.faults K.missing S.written S.faults keeper.new out.new) (exit_status result) }

    // A device's fault ends the run at once, with its own status.
    ensures device { IsFaultTold (outside K.files K.faults K.missing S.written S.faults keeper.old out.old) (outside K.files K.faults K.missing S.written S.faults keeper.new out.new) (exit_status result) }

    // The usage's status comes only for words that are refused.
    ensures words { exit_status result ≡ 2 → request_of (words_given args) ≡ None }

    // Where the command line isn't read for want of memory, that is answered.
    ensures memory { IfErr args (λ e. error_kind e ≡ ErrorKind.OutOfMemory → exit_status result ≡ 7) }
{
    match args {
        Ok(args) => match behind_name(alloc, args) {
            Ok(words) => ExitCode::from(run_single(alloc, &words, keeper, out)),
            Err(_) => ExitCode::from(7),
        },
        Err(e) if e.kind() == ErrorKind::OutOfMemory => ExitCode::from(7),
        Err(_) => ExitCode::from(run_single(alloc, &[], keeper, out)),
    }
}
