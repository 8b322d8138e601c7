//! The call that does all that the program does on one thread.
ghost use Rattle.std.specs.Prelude.{◌≡◌, ◌≤◌, ◌<◌, ◌++◌, ◌≢◌, ℕ, All, List, None, map, string_bytes, length, take, option_map, IfOk, OnErr};
ghost use Rattle.bvd_host.specs.Files.{Files};
ghost use Rattle.bvd_host.specs.Causes.{Rose, HasCause};
ghost use Rattle.bvd_host.specs.Outside.{outside, CountsStay, IsHonest};
ghost use Rattle.bvd_words.specs.Asked.{command_shown, request_shown};
ghost use Rattle.bvd_top.specs.Parts.{AreAnswered};
ghost use Rattle.bvd_report.specs.Report.{all_goals};
ghost use Rattle.bvd_report.specs.Shown.{gates_shown, parts_shown};
ghost use Rattle.bvd_report.specs.Tellable.{IsPart};
ghost use Rattle.bvd_top.specs.Scheduled.{gates_of};
ghost use Rattle.bvd_top.specs.Stated.{IsSmall, AreStated};
ghost use Rattle.bvd_top.specs.Shown.{stated_shown, files_shown};
ghost use Rattle.bvd_top.specs.Parsed.{IsOfFile};
ghost use Rattle.bvd_words.specs.Requests.{request_of};
ghost use Rattle.bvd_top.specs.Words.{usage};
ghost use Rattle.bvd_top.specs.Ending.{Ending, Answered, Finishes, Does, IsFaultTold, status_in};

use crate::answering::answer_all;
use crate::parsing::{File, parse_all};
use crate::reading::read_all;
use crate::scheduling::schedule_all;
use crate::stop::Stop;
use crate::storing::store_certificates;
use crate::telling::tell;
use bvd_host::{Keeper, Sink};
use bvd_report::{Part, report, status_of};
use bvd_words::{Command, Request, read_words};
use goal_reply::GateCounts;
use std::alloc::{AllocError, Global};

/// The files of a request with what they state: all are read, and then they are parsed.
fn files_of<'a, K: Keeper>(
    alloc: Global,
    request: &Request<'a>,
    keeper: &mut K,
) -> Result<Vec<File<'a>>, Stop>
    ensures stated { IfOk result (λ files. AreStated (K.files keeper.old) (Rose (K.missing keeper.old) (K.missing keeper.new)) (request_shown request.now).files (files_shown files.items)) }
    ensures small { IfOk result (λ files. All (λ f. IsSmall (stated_shown f.stated)) files.items) }
    ensures of_file { IfOk result (λ files. All (λ f. IsOfFile f.stated) files.items) }
    ensures count { IfOk result (λ files. length files.items ≡ length request.now.files.items) }
    ensures files { K.files keeper.new ≡ K.files keeper.old }
    ensures missing { K.missing keeper.old ≤ K.missing keeper.new }
    ensures cause { HasCause Stop.Device (K.faults keeper.old) (K.faults keeper.new) result }
{
    let reads = read_all(alloc, keeper, &request.files)?;
    Ok(parse_all(alloc, &reads)?)
}

/// What became of each file once its goals are answered, and the gates that a schedule counts.
fn answered<'a, 'b, K: Keeper>(
    alloc: Global,
    keeper: &mut K,
    request: &Request<'_>,
    files: &'a [File<'b>],
) -> Result<(Vec<Part<'a>>, Option<GateCounts>), Stop>
    requires budget { request.now.steps ≤ 1000000000 }
    requires table { (1 ≤ request.now.table) × (request.now.table ≤ 4000000) }
    requires small { All (λ f. IsSmall (stated_shown f.stated)) files.now }
    requires of_file { All (λ f. IsOfFile f.stated) files.now }
    requires few { length files.now ≤ 64 }
    ensures tellable { IfOk result (λ r. All IsPart r.0.items) }
    ensures found { IfOk result (λ r. AreAnswered (request_shown request.now) (K.files keeper.old) (Rose (K.missing keeper.old) (K.missing keeper.new)) (files_shown files.now) (parts_shown r.0.items)) }
    ensures gates { IfOk result (λ r. option_map gates_shown r.1 ≡ gates_of (command_shown request.now.command) (all_goals (parts_shown r.0.items))) }
    ensures few { IfOk result (λ r. length (all_goals (parts_shown r.0.items)) ≤ 65536) }
    ensures files { K.files keeper.new ≡ K.files keeper.old }
    ensures missing { K.missing keeper.old ≤ K.missing keeper.new }
    ensures cause { HasCause Stop.Device (K.faults keeper.old) (K.faults keeper.new) result }
{
    match request.command {
        Command::Schedule => {
            let (parts, counts) = schedule_all(alloc, request, files)?;
            Ok((parts, Some(counts)))
        }
        _ => Ok((answer_all(alloc, keeper, request, files)?, None)),
    }
}

/// Does what is asked with files whose goals are known: answers these, then writes the certificates, then the report.
fn finish<K: Keeper, S: Sink>(
    alloc: Global,
    request: &Request<'_>,
    files: &[File<'_>],
    keeper: &mut K,
    out: &mut S,
) -> Result<u8, Stop>
    requires budget { request.now.steps ≤ 1000000000 }
    requires table { (1 ≤ request.now.table) × (request.now.table ≤ 4000000) }
    requires small { All (λ f. IsSmall (stated_shown f.stated)) files.now }
    requires of_file { All (λ f. IsOfFile f.stated) files.now }
    requires few { length files.now ≤ 64 }
    ensures counts { CountsStay (outside K.files K.faults K.missing S.written S.faults keeper.old out.old) (outside K.files K.faults K.missing S.written S.faults keeper.new out.new) }
    ensures ending { Finishes (AreAnswered (request_shown request.now) (K.files keeper.old) (Rose (K.missing keeper.old) (K.missing keeper.new)) (files_shown files.now)) (request_shown request.now)
        (outside K.files K.faults K.missing S.written S.faults keeper.old out.old) (outside K.files K.faults K.missing S.written S.faults keeper.new out.new) (status_in result) }
{
    let (parts, gates) = answered(alloc, keeper, request, files)?;
    let text = report(alloc, request, &parts, gates)?;
    store_certificates(keeper, &parts)?;
    tell(out, &text)?;
    Ok(status_of(&parts))
}

/// Does what is asked. The goals stay where they are until the run is done, and what is told of them borrows them.
fn answer<K: Keeper, S: Sink>(
    alloc: Global,
    request: &Request<'_>,
    keeper: &mut K,
    out: &mut S,
) -> Result<u8, Stop>
    requires few { length request.now.files.items ≤ 64 }
    requires budget { request.now.steps ≤ 1000000000 }
    requires table { (1 ≤ request.now.table) × (request.now.table ≤ 4000000) }
    ensures counts { CountsStay (outside K.files K.faults K.missing S.written S.faults keeper.old out.old) (outside K.files K.faults K.missing S.written S.faults keeper.new out.new) }
    ensures ending { Answered (request_shown request.now) (outside K.files K.faults K.missing S.written S.faults keeper.old out.old) (outside K.files K.faults K.missing S.written S.faults keeper.new out.new) (status_in result) }
{
    let files = files_of(alloc, request, keeper)?;
    finish(alloc, request, &files, keeper, out)
}

/// The usage, as bytes.
const USAGE: &[u8] = b"usage: bvd COMMAND [OPTIONS] FILE..\n";

/// The status of a run.
fn status_in(end: Result<u8, Stop>) -> u8
    ensures { result ≡ status_in end }
{
    match end {
        Ok(status) => status,
        Err(Stop::Device) => 6,
        Err(Stop::Memory) => 7,
    }
}

/// Refuses the words.
fn refuse<S: Sink>(out: &mut S) -> Result<u8, Stop>
    ensures ok { IfOk result (λ status. (status ≡ 2) × (S.written out.new ≡ option_map (λ w. w ++ usage) (S.written out.old))) }
    ensures err { OnErr result ((n : ℕ) × (n < length usage) × (S.written out.new ≡ option_map (λ w. w ++ take n usage) (S.written out.old))) }
    ensures cause { HasCause Stop.Device (S.faults out.old) (S.faults out.new) result }
{
    tell(out, USAGE)?;
    Ok(2)
}

/// Does what the words ask, step by step.
fn end<K: Keeper, S: Sink>(alloc: Global, words: &[String], keeper: &mut K, out: &mut S) -> u8
    ensures counts { CountsStay (outside K.files K.faults K.missing S.written S.faults keeper.old out.old) (outside K.files K.faults K.missing S.written S.faults keeper.new out.new) }
    ensures ending { Ending (map string_bytes words.now) (outside K.files K.faults K.missing S.written S.faults keeper.old out.old) (outside K.files K.faults K.missing S.written S.faults keeper.new out.new) result }
{
    match read_words(alloc, words) {
        Ok(Some(request)) => status_in(answer(alloc, &request, keeper, out)),
        Ok(None) => status_in(refuse(out)),
        Err(_) => 7,
    }
}

/// Does what the words of the command line ask, and answers the exit status. The first word is the command:
/// `prove`, `alone`, `check`, `schedule`, `cnf` or `show`.
///
/// | Status | Comes |
/// |---|---|
/// | 0 | where none of the others does |
/// | 1 | exactly where a goal is false or a certificate is refused |
/// | 2 | exactly where the words are refused: the usage is told, and nothing is asked of the keeper |
/// | 3 | exactly where a goal's steps are spent, or its circuit is too deep or too large |
/// | 4 | exactly where a file is absent, too long or faulty, or a certificate is absent |
/// | 5 | exactly where a schedule's table had no room for a goal |
/// | 6 | exactly where the keeper's or the sink's count of faults rose in this call, or stood at its end |
/// | 7 | for want of memory, the one free answer |
///
/// The greatest that applies is answered, but a device that fails ends the run at once with 6, and then nothing more is
/// asked of either device. What is told is always a beginning of the report, and one that is told whole is answered by
/// its own status. Cost: the searches, the events or the replays of the goals, and linear in the files, the certificates
/// and the report.
pub fn run_single<K: Keeper, S: Sink>(
    alloc: Global,
    words: &[String],
    keeper: &mut K,
    out: &mut S,
) -> u8
    // No count falls.
    ensures counts { CountsStay (outside K.files K.faults K.missing S.written S.faults keeper.old out.old) (outside K.files K.faults K.missing S.written S.faults keeper.new out.new) }

    // In every case: how far the run came, by the order of its steps, and why it stopped there.
    ensures ending { Ending (map string_bytes words.now) (outside K.files K.faults K.missing S.written S.faults keeper.old out.old) (outside K.files K.faults K.missing S.written S.faults keeper.new out.new) result }

    // Where no device fails and both tell what they hold: the report, the certificates and the status, or want of memory.
    ensures done { (files : Files) (text : List ℕ) → IsHonest (outside K.files K.faults K.missing S.written S.faults keeper.old out.old) (outside K.files K.faults K.missing S.written S.faults keeper.new out.new) files text
        → result ≢ 7 → Does (request_of (map string_bytes words.now)) files text (outside K.files K.faults K.missing S.written S.faults keeper.new out.new) result }

    // A device's fault ends the run at once, with its own status.
    ensures device { IsFaultTold (outside K.files K.faults K.missing S.written S.faults keeper.old out.old) (outside K.files K.faults K.missing S.written S.faults keeper.new out.new) result }

    // The usage's status comes only for words that are refused.
    ensures words { result ≡ 2 → request_of (map string_bytes words.now) ≡ None }
{
    end(alloc, words, keeper, out)
}
