//! The certificates of a run are written in order of goals, so that after a failure those of the first goals are whole and the others aren't begun.
ghost use Rattle.std.specs.Prelude.{◌≡◌, ◌∷◌, [], option_map, OnOk, OnErr};
ghost use Rattle.std.specs.Option.{option_copied};
ghost use Rattle.bvd_host.specs.Files.{with_file};
ghost use Rattle.bvd_host.specs.Causes.{HasCause};
ghost use Rattle.cert_store.specs.CutShort.{IsCutShort};
ghost use Rattle.bvd_report.specs.Report.{certificates, certificates_of};
ghost use Rattle.bvd_report.specs.Shown.{told_shown, line_shown, lines_shown, parts_shown};
ghost use Rattle.bvd_top.specs.Storing.{IsPartlyStored, text_of, with_all};

use crate::stop::Stop;
use bvd_host::Keeper;
use bvd_report::{Line, Part, Told, goals_of};
use cert_store::{StoreStop, put};
use goal_reply::{Outcome, Reply};

/// Writes a file. After an error it holds what it held before, or a beginning of the bytes.
fn store<K: Keeper>(keeper: &mut K, name: &str, bytes: &[u8]) -> Result<(), Stop>
    ensures ok { OnOk result (K.files keeper.new ≡ option_map (λ f. with_file f name.now bytes.now) (K.files keeper.old)) }
    ensures err { OnErr result (IsCutShort name.now bytes.now (K.files keeper.old) (K.files keeper.new)) }
    ensures missing { K.missing keeper.new ≡ K.missing keeper.old }
    ensures cause { HasCause Stop.Device (K.faults keeper.old) (K.faults keeper.new) result }
{
    match put(keeper, name, bytes) {
        Ok(()) => Ok(()),
        Err(StoreStop::Failed) => Err(Stop::Device),
        Err(_) => Err(Stop::Memory),
    }
}

/// The text of the certificate by which a goal is told proved.
fn certificate_text(told: &Told) -> Option<&[u8]>
    ensures { option_copied result ≡ text_of (told_shown told.now) }
{
    match told {
        Told::Outcome(Outcome::Replied(Reply::Proved(text))) => Some(text.as_slice()),
        Told::Outcome(
            Outcome::Replied(
                Reply::False(_) | Reply::Budget(_) | Reply::Deep | Reply::Large | Reply::Memory,
            ),
        ) => None,
        Told::Outcome(Outcome::Full | Outcome::Cancelled(_)) => None,
        Told::Replayed(_) | Told::AbsentCertificate | Told::Clauses(_) | Told::Nothing => None,
    }
}

/// Writes the certificate of a goal, where it is proved.
fn store_line<K: Keeper>(keeper: &mut K, line: &Line<'_>) -> Result<(), Stop>
    ensures ok { OnOk result (K.files keeper.new ≡ option_map (with_all (certificates_of (line_shown line.now ∷ []))) (K.files keeper.old)) }
    ensures err { OnErr result (IsPartlyStored (certificates_of (line_shown line.now ∷ [])) (K.files keeper.old) (K.files keeper.new)) }
    ensures missing { K.missing keeper.new ≡ K.missing keeper.old }
    ensures cause { HasCause Stop.Device (K.faults keeper.old) (K.faults keeper.new) result }
{
    match certificate_text(&line.told) {
        Some(text) => store(keeper, line.certificate.as_str(), text),
        None => Ok(()),
    }
}

/// Writes the certificates of a file's goals.
fn store_lines<K: Keeper>(keeper: &mut K, lines: &[Line<'_>]) -> Result<(), Stop>
    ensures ok { OnOk result (K.files keeper.new ≡ option_map (with_all (certificates_of (lines_shown lines.now))) (K.files keeper.old)) }
    ensures err { OnErr result (IsPartlyStored (certificates_of (lines_shown lines.now)) (K.files keeper.old) (K.files keeper.new)) }
    ensures missing { K.missing keeper.new ≡ K.missing keeper.old }
    ensures cause { HasCause Stop.Device (K.faults keeper.old) (K.faults keeper.new) result }
{
    'lines: for line in lines {
        store_line(keeper, line)?;
    }
    Ok(())
}

/// Writes the certificates of the goals that are proved, in order. After an error those before some goal are written,
/// that goal's is perhaps begun, and the others aren't.
/// Errors: the keeper failed, or want of memory. Cost: linear in the certificates' bytes.
pub fn store_certificates<K: Keeper>(keeper: &mut K, parts: &[Part<'_>]) -> Result<(), Stop>
    ensures ok { OnOk result (K.files keeper.new ≡ option_map (with_all (certificates (parts_shown parts.now))) (K.files keeper.old)) }
    ensures err { OnErr result (IsPartlyStored (certificates (parts_shown parts.now)) (K.files keeper.old) (K.files keeper.new)) }
    ensures missing { K.missing keeper.new ≡ K.missing keeper.old }
    ensures cause { HasCause Stop.Device (K.faults keeper.old) (K.faults keeper.new) result }
{
    'parts: for part in parts {
        store_lines(keeper, goals_of(&part.found))?;
    }
    Ok(())
}
