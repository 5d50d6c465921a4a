//! One run of `compass asm`, and its status.
ghost use Rattle.std.specs.Prelude.{◌≡◌, OnOk, IfOk, IfErr, IfSome};
ghost use Rattle.std.specs.Io.KnownBytes.{IsAtEnd};
ghost use Rattle.definitions.specs.Answer.{answer_of};
ghost use Rattle.definitions.specs.Build.{build_of};
ghost use Rattle.asm_main.specs.Builds.{IsWrittenAfter, Gives, IsToldBy, IsToldOf, IsPartFor, Counts};
ghost use Rattle.asm_main.specs.Inputs.{input_in, AreDecksOf, TellsFaultIn, TellsFaultOf, ReadsToFault, IsSoundBefore};
ghost use Rattle.asm_main.specs.Joins.Ways.{decks_of};
ghost use Rattle.asm_main.specs.Runs.{IsBeforeWriting, IsReadBefore, input_count_after, input_count_behind, output_count_behind, run_status};

use crate::asm_fault::AsmFault;
use crate::built::Built;
use crate::deck_input::read_decks;
use deck_linker::Publication;
use std::alloc::Global;
use std::hash::RandomState;
use std::io::{BufRead, Write};
use text_ports::{Counted, LineBuf};

/// What a run counts: the flagged statements, and the LINK lines of the map.
#[derive(Clone, Copy)]
pub struct Tally {
    pub errors: usize,
    pub links: usize,
}

/// Reads decks of cards, and builds what is written of them: all of a run but its output. The line
/// that was read last is left in `line`.
pub fn asm_build_with<R: BufRead>(
    alloc: Global,
    keys: RandomState,
    input: &mut Counted<R>,
    line: &mut LineBuf,
) -> Result<Built, AsmFault>
    // Where the bytes of the input are known, the decks are those of the definitions, or the fault of
    // the input is reported, its text and its status.
    ensures decks { IfOk result (λ built.
        IfSome (R.remaining input.old.0) (λ bytes. AreDecksOf (input_in bytes) (decks_of built))) }
    ensures told { IfErr result (λ fault.
        IfSome (R.remaining input.old.0) (λ bytes. IsToldBy (answer_of bytes) fault)) }

    // What was read are lines that show no fault, and then one line at most.
    ensures read { ReadsToFault (R.remaining input.old.0) (R.remaining input.new.0) }
    ensures fault { IfErr result (λ fault.
        IfSome (R.remaining input.old.0) (λ bytes. TellsFaultOf (input_in bytes) fault)) }

    // Want of memory is reported only where what was read shows no fault.
    ensures memory { IfErr result (λ fault. IsSoundBefore fault (R.remaining input.old.0) (R.remaining input.new.0)) }

    ensures all_read { OnOk result (IsAtEnd (R.remaining input.new.0)) }
    ensures before_writing { IfErr result IsBeforeWriting }
    ensures count_ok { OnOk result (input.new.1 ≡ input.old.1) }
    ensures count { IfErr result (λ fault. input.new.1 ≡ input_count_after fault input.old.1) }
{
    let decks = read_decks(alloc, input, line)?;
    Ok(Built::new(alloc, keys, decks)?)
}

/// Reads decks of cards, and builds what is written of them: all of a run but its output.
pub fn asm_build<R: BufRead>(
    alloc: Global,
    keys: RandomState,
    input: &mut Counted<R>,
) -> Result<Built, AsmFault>
    // Where the bytes of the input are known, the decks are those of the definitions, or the fault of
    // the input is reported, its text and its status.
    ensures decks { IfOk result (λ built.
        IfSome (R.remaining input.old.0) (λ bytes. AreDecksOf (input_in bytes) (decks_of built))) }
    ensures told { IfErr result (λ fault.
        IfSome (R.remaining input.old.0) (λ bytes. IsToldBy (answer_of bytes) fault)) }

    // What was read are lines that show no fault, and then one line at most.
    ensures read { ReadsToFault (R.remaining input.old.0) (R.remaining input.new.0) }
    ensures fault { IfErr result (λ fault.
        IfSome (R.remaining input.old.0) (λ bytes. TellsFaultOf (input_in bytes) fault)) }

    // Want of memory is reported only where what was read shows no fault.
    ensures memory { IfErr result (λ fault. IsSoundBefore fault (R.remaining input.old.0) (R.remaining input.new.0)) }

    ensures all_read { OnOk result (IsAtEnd (R.remaining input.new.0)) }
    ensures before_writing { IfErr result IsBeforeWriting }
    ensures count_ok { OnOk result (input.new.1 ≡ input.old.1) }
    ensures count { IfErr result (λ fault. input.new.1 ≡ input_count_after fault input.old.1) }
{
    asm_build_with(alloc, keys, input, &mut LineBuf::new())
}

/// What a publication counts.
pub(crate) fn tally_of(publication: &Publication) -> Tally
    ensures { Counts (build_of publication.now.decks) result }
{
    Tally {
        errors: publication.errors() as usize,
        links: publication.links(),
    }
}

/// Reads decks of cards, and writes their listing, the link map and the octal image: the answer of
/// the definitions. All is read before anything is written, and what follows the first fault is not
/// looked at.
pub fn asm_run<R: BufRead, W: Write>(
    alloc: Global,
    keys: RandomState,
    input: &mut Counted<R>,
    output: &mut Counted<W>,
) -> Result<Tally, AsmFault>
    // Where the bytes of the input are known, the answer is that of the definitions: what is
    // written, and the status; or the fault of the input, its text and its status; and after a
    // fault of the writer exactly the first `sent` bytes.
    ensures answer { IfOk result (λ tally.
        IfSome (R.remaining input.old.0) (λ bytes. Gives (answer_of bytes) (W.contents output.old.0) (W.contents output.new.0) tally)) }
    ensures told { IfErr result (IsToldOf (R.remaining input.old.0)) }
    ensures part { IfErr result (IsPartFor (R.remaining input.old.0) (W.contents output.old.0) (W.contents output.new.0)) }

    // What was read are lines that show no fault, and then one line at most: what follows the first
    // fault is not looked at.
    ensures read { ReadsToFault (R.remaining input.old.0) (R.remaining input.new.0) }
    ensures fault { IfErr result (TellsFaultIn (R.remaining input.old.0)) }

    // Want of memory is reported only where what was read shows no fault.
    ensures memory { IfErr result (λ fault. IsSoundBefore fault (R.remaining input.old.0) (R.remaining input.new.0)) }

    // Nothing is written before all is read.
    ensures all_read { IsReadBefore result (R.remaining input.new.0) }

    // The build of some decks went out, those of the input; the tally counts its flagged statements
    // and LINK lines. After a fault of the writer exactly the bytes that it reports went out, after any
    // other none.
    ensures written { IsWrittenAfter result (R.remaining input.old.0) (W.contents output.old.0) (W.contents output.new.0) }

    // A fault of a port is reported only where that port failed in the call.
    ensures input_count { input.new.1 ≡ input_count_behind result input.old.1 }
    ensures output_count { output.new.1 ≡ output_count_behind result output.old.1 }
{
    let built = asm_build(alloc, keys, input)?;
    let tally = built.tally();
    match built.write(output) {
        Ok(()) => Ok(tally),
        Err(broken) => Err(AsmFault::WriteFault { sent: broken.sent }),
    }
}

/// The exit status of a run: 0, or 1 where a statement is flagged or the map has a LINK line; 3
/// after a fault of the input, 4 where no memory was left, 5 after a fault of the output.
pub fn asm_status(outcome: &Result<Tally, AsmFault>) -> u8
    ensures { result ≡ run_status outcome.now }
{
    match outcome {
        Ok(tally) if tally.errors == 0 && tally.links == 0 => 0,
        Ok(_) => 1,
        Err(AsmFault::OutOfMemory) => 4,
        Err(AsmFault::WriteFault { .. }) => 5,
        Err(_) => 3,
    }
}
