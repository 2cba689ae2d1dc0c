//! Runs a command.
ghost use Rattle.std.specs.Prelude.{◌≡◌, ◌≢◌, ◌↔◌, false, Err};
ghost use Rattle.player_core.specs.State.{players_of};
ghost use Rattle.player_core.specs.Fits.{Fits};
ghost use Rattle.player_core.specs.Bench.{KeepsBench, notes_of};
ghost use Rattle.lab_ports.specs.Causes.{Rose};
ghost use Rattle.lab_ports.specs.Holding.{Grew, GrewByPart};
ghost use Rattle.refusals.specs.declared.refusal.Refusal.TheVariants.{NotBuilt};
ghost use Rattle.lab_file.specs.Limits.{HasJob, command_of};
ghost use Rattle.axlab_core.specs.Complete.{MustAnswer, MustDrill, MustMiss, MustRefuse, MustStop};
ghost use Rattle.axlab_core.specs.Bounded.{IsBounded};
ghost use Rattle.axlab_core.specs.Files.{ReadsInOrder};
ghost use Rattle.axlab_core.specs.Input.{Comes, OfLab, OfWords, call_of};
ghost use Rattle.axlab_core.specs.Loading.{Refuses, Denies};
ghost use Rattle.axlab_core.specs.Outcome.{Ends, IsUnread, LeftOff, OnAnswered, OnWriteFault, OnReadFault, OnNoMemory, IfRefused, IfDenied, OnUnwritten, OnOther, Wrote};
ghost use Rattle.axlab_core.specs.Right.{Serves, Told};
ghost use Rattle.axlab_core.specs.Steps.{IsFit};
ghost use Rattle.axlab_core.specs.Texts.{status_text};
ghost use Rattle.axlab_core.specs.WordList.{word_list};
ghost use Rattle.axlab_core.specs.Words.{form_of, lab_name, second_name, needs_lab};
ghost use Rattle.axlab_core.specs.declared.words.Form.TheVariants as forms;

use crate::load::load_lab;
use crate::output::{Hindrance, Output, deliver};
use crate::second::{Second, read_second};
use crate::telling::tell;
use crate::world::Watched;
use crate::{Form, Status};
use lab_file::{Command, Job, Lab};
use lab_ports::{Library, Refusal, Sink};
use play_commands::{drill, lab_match, lab_tournament};
use player_core::laws::keeping_lasts;
use player_core::{Bench, Player, PlugNote, Seen};
use std::alloc::Global;

// The name of the lab.
fn lab_name(words: &Vec<String>) -> &str
    requires { form_of (word_list words.now) ≢ forms.Faulty }
    ensures { result.now ≡ lab_name (word_list words.now) }
{
    words[1].as_str()
}

// The name of the second file, where there is one.
fn second_name(words: &Vec<String>) -> &str
    ensures { result.now ≡ second_name (word_list words.now) }
{
    match words.get(2) {
        Some(word) => word.as_str(),
        None => "",
    }
}

// The drill of a number, for which the bench's players are asked.
fn serve_drill(alloc: Global, number: u64, bench: &mut Bench) -> Result<Output, Hindrance>
    requires { Fits (⟦<Bench as Seen>⟧.view bench.old) }
    ensures served { Serves (forms.Drill number) (⟦<Bench as Seen>⟧.view bench.old) (⟦<Bench as Seen>⟧.view bench.new) OfWords result }
    ensures kept { KeepsBench (⟦<Bench as Seen>⟧.view bench.old) (⟦<Bench as Seen>⟧.view bench.new) }
{
    match drill(alloc, number, bench) {
        Ok(report) => Ok(Output::Report(report)),
        Err(_) => Err(Hindrance::NoMemory),
    }
}

// The work on a lab's job, for which the bench's players are asked. No job needs a second file yet.
fn serve(
    alloc: Global,
    lab: &Lab,
    job: Job<'_>,
    second: &Second,
    bench: &mut Bench,
) -> Result<Output, Hindrance>
    requires fits { Fits (⟦<Bench as Seen>⟧.view bench.old) }
    requires job { HasJob lab.now job }
    requires fit { IsFit (command_of job) (notes_of (players_of (⟦<Bench as Seen>⟧.view bench.old))) lab.now }
    ensures served { Serves (forms.Lab (command_of job.entry)) (⟦<Bench as Seen>⟧.view bench.old) (⟦<Bench as Seen>⟧.view bench.new) (OfLab lab.now second.now) result }
    ensures kept { KeepsBench (⟦<Bench as Seen>⟧.view bench.old) (⟦<Bench as Seen>⟧.view bench.new) }
{
    match job {
        Job::Match(job) => match lab_match(alloc, lab, job, bench) {
            Ok(report) => Ok(Output::Report(report)),
            Err(_) => Err(Hindrance::NoMemory),
        },
        Job::Tournament(job) => match lab_tournament(alloc, lab, job, bench) {
            Ok(report) => Ok(Output::Report(report)),
            Err(_) => Err(Hindrance::NoMemory),
        },
    }
}

// A command with a lab, over a bench whose plugs have these notes: the lab with its files, then the
// limits of its job, then the second file, then the work.
fn answer_lab<L: Library, O: Sink>(
    alloc: Global,
    command: Command,
    words: &Vec<String>,
    notes: &Vec<PlugNote>,
    files: &mut L,
    out: &mut O,
    bench: &mut Bench,
) -> Status
    requires form { form_of (word_list words.now) ≡ forms.Lab command }
    requires fits { Fits (⟦<Bench as Seen>⟧.view bench.old) }
    requires notes { notes.now.items ≡ notes_of (players_of (⟦<Bench as Seen>⟧.view bench.old)) }
    ensures ends { Ends (call_of (word_list words.now) (⟦<Bench as Watched<L, O>>⟧.world bench.old files.old out.old)) (⟦<Bench as Watched<L, O>>⟧.world bench.new files.new out.new) result }
    ensures kept { KeepsBench (⟦<Bench as Seen>⟧.view bench.old) (⟦<Bench as Seen>⟧.view bench.new) }
{
    keeping_lasts();
    let lab = match load_lab(alloc, lab_name(words), notes, files) {
        Ok(lab) => lab,
        Err(error) => return error.status(),
    };
    let job = match lab.job(command, notes) {
        Ok(job) => job,
        Err(refusal) => return Status::Refused(refusal),
    };
    match read_second(alloc, command, second_name(words), files) {
        Ok(second) => {
            let served = serve(alloc, &lab, job, &second, bench);
            deliver(alloc, served, out)
        }
        Err(error) => error.status(),
    }
}

// A command with a lab.
fn run_lab<L: Library, O: Sink>(
    alloc: Global,
    command: Command,
    words: &Vec<String>,
    files: &mut L,
    out: &mut O,
    bench: &mut Bench,
) -> Status
    requires form { form_of (word_list words.now) ≡ forms.Lab command }
    requires fits { Fits (⟦<Bench as Seen>⟧.view bench.old) }
    ensures ends { Ends (call_of (word_list words.now) (⟦<Bench as Watched<L, O>>⟧.world bench.old files.old out.old)) (⟦<Bench as Watched<L, O>>⟧.world bench.new files.new out.new) result }
    ensures kept { KeepsBench (⟦<Bench as Seen>⟧.view bench.old) (⟦<Bench as Seen>⟧.view bench.new) }
{
    keeping_lasts();
    match bench.notes(alloc) {
        Ok(notes) => answer_lab(alloc, command, words, &notes, files, out, bench),
        Err(_) => Status::NoMemory,
    }
}

// Runs the command of the words, and writes what it gives.
fn run<L: Library, O: Sink>(
    alloc: Global,
    words: &Vec<String>,
    files: &mut L,
    out: &mut O,
    bench: &mut Bench,
) -> Status
    requires { Fits (⟦<Bench as Seen>⟧.view bench.old) }
    ensures ends { Ends (call_of (word_list words.now) (⟦<Bench as Watched<L, O>>⟧.world bench.old files.old out.old)) (⟦<Bench as Watched<L, O>>⟧.world bench.new files.new out.new) result }
    ensures unread { needs_lab (form_of (word_list words.now)) ≡ false → files.new ≡ files.old }
    ensures kept { KeepsBench (⟦<Bench as Seen>⟧.view bench.old) (⟦<Bench as Seen>⟧.view bench.new) }
{
    keeping_lasts();
    match Form::of(words) {
        Form::Faulty => Status::Usage,
        Form::Unbuilt => Status::Refused(Refusal::NotBuilt),
        Form::Drill(number) => {
            let served = serve_drill(alloc, number, bench);
            deliver(alloc, served, out)
        }
        Form::Lab(command) => run_lab(alloc, command, words, files, out, bench),
    }
}

/// The program: runs the command of the words over these files, with the players of this bench,
/// writes its report to `out`, and tells `err` what came in its way. The status says how it ended;
/// its number is the exit status.
pub fn axlab<L: Library, O: Sink, E: Sink>(
    alloc: Global,
    words: &Vec<String>,
    files: &mut L,
    out: &mut O,
    err: &mut E,
    bench: &mut Bench,
) -> Status
    requires { Fits (⟦<Bench as Seen>⟧.view bench.old) }
    // An answer is right, and the players were asked for it.
    ensures answered { OnAnswered result (Wrote (call_of (word_list words.now) (⟦<Bench as Watched<L, O>>⟧.world bench.old files.old out.old)) (⟦<Bench as Watched<L, O>>⟧.world bench.new files.new out.new) Grew) }

    // Each other status has its cause.
    ensures usage { (result ≡ Status.Usage) ↔ (form_of (word_list words.now) ≡ forms.Faulty) }
    ensures unbuilt { form_of (word_list words.now) ≡ forms.Unbuilt → result ≡ Status.Refused NotBuilt }
    ensures unread { needs_lab (form_of (word_list words.now)) ≡ false → files.new ≡ files.old }
    ensures read_fault { OnReadFault result (IsUnread (call_of (word_list words.now) (⟦<Bench as Watched<L, O>>⟧.world bench.old files.old out.old)) (⟦<Bench as Watched<L, O>>⟧.world bench.new files.new out.new)) }
    ensures refused { IfRefused result (λ refusal. Comes (call_of (word_list words.now) (⟦<Bench as Watched<L, O>>⟧.world bench.old files.old out.old)) (Err (Refuses refusal))) }
    ensures denied { IfDenied result (λ line. Comes (call_of (word_list words.now) (⟦<Bench as Watched<L, O>>⟧.world bench.old files.old out.old)) (Err (Denies line))) }
    ensures write_fault { OnWriteFault result (Rose (O.faults out.old) (O.faults out.new)) }

    // Whatever the answer, files are read in their order, and players advanced no more often than the
    // work allows.
    ensures reads { ReadsInOrder (call_of (word_list words.now) (⟦<Bench as Watched<L, O>>⟧.world bench.old files.old out.old)) (⟦<Bench as Watched<L, O>>⟧.world bench.new files.new out.new) }
    ensures bounded { IsBounded (call_of (word_list words.now) (⟦<Bench as Watched<L, O>>⟧.world bench.old files.old out.old)) (⟦<Bench as Watched<L, O>>⟧.world bench.new files.new out.new) }

    // What is held must be answered, or stopped so, unless memory or a port fails.
    ensures complete { MustAnswer (call_of (word_list words.now) (⟦<Bench as Watched<L, O>>⟧.world bench.old files.old out.old)) (⟦<Bench as Watched<L, O>>⟧.world bench.new files.new out.new) result }
    ensures stops { MustStop (call_of (word_list words.now) (⟦<Bench as Watched<L, O>>⟧.world bench.old files.old out.old)) (⟦<Bench as Watched<L, O>>⟧.world bench.new files.new out.new) result }
    ensures refuses { MustRefuse (call_of (word_list words.now) (⟦<Bench as Watched<L, O>>⟧.world bench.old files.old out.old)) (⟦<Bench as Watched<L, O>>⟧.world bench.new files.new out.new) result }
    ensures misses { MustMiss (call_of (word_list words.now) (⟦<Bench as Watched<L, O>>⟧.world bench.old files.old out.old)) result }
    ensures drills { MustDrill (call_of (word_list words.now) (⟦<Bench as Watched<L, O>>⟧.world bench.old files.old out.old)) (⟦<Bench as Watched<L, O>>⟧.world bench.new files.new out.new) result }

    // The bench goes on fitting, with the same plugs and plug automata.
    ensures kept { KeepsBench (⟦<Bench as Seen>⟧.view bench.old) (⟦<Bench as Seen>⟧.view bench.new) }

    // What the sinks took.
    ensures part { OnWriteFault result (Wrote (call_of (word_list words.now) (⟦<Bench as Watched<L, O>>⟧.world bench.old files.old out.old)) (⟦<Bench as Watched<L, O>>⟧.world bench.new files.new out.new) GrewByPart) }
    ensures left_off { OnNoMemory result (LeftOff (call_of (word_list words.now) (⟦<Bench as Watched<L, O>>⟧.world bench.old files.old out.old)) (⟦<Bench as Watched<L, O>>⟧.world bench.new files.new out.new)) }
    ensures untouched { OnUnwritten result (O.taken out.new ≡ O.taken out.old) }
    ensures silent { OnAnswered result (E.taken err.new ≡ E.taken err.old) }
    ensures told { OnOther result (Told (status_text result) (E.taken err.old) (E.taken err.new) (E.faults err.old) (E.faults err.new)) }
{
    let status = run(alloc, words, files, out, bench);
    tell(err, &status);
    status
}
