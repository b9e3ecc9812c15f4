ghost use Rattle.std.specs.Prelude.{◌++◌, codes};
ghost use Rattle.md_outer.specs.Outside.{PutsText};
ghost use Rattle.md_top.specs.Texts.{digest_line, digest_lines, lines_of};

use crate::put::put_three;
use crate::report::{hexadecimal, put_lines};
use md_outer::{Failed, Sink};
use run_command::{Digests, Summary};

/// Puts the lines of a run of a demonstration cartridge that ends well.
pub(crate) fn put_summary<S: Sink>(out: &mut S, end: u64, summary: &Summary) -> Result<(), Failed>
    ensures { PutsText S.observable (lines_of 0 end summary.now.frames summary.now.accesses summary.now.halted ++ digest_lines summary.now.digests)
        (S.state out.old) (S.state out.new) result }
{
    match put_lines(
        out,
        0,
        end,
        summary.frames,
        summary.accesses,
        summary.halted,
    ) {
        Ok(()) => put_digest_lines(out, &summary.digests),
        Err(failed) => Err(failed),
    }
}

/// Puts the lines of the digests.
fn put_digest_lines<S: Sink>(out: &mut S, digests: &Digests) -> Result<(), Failed>
    ensures { PutsText S.observable (digest_lines digests.now) (S.state out.old) (S.state out.new) result }
{
    match put_media_digests(out, digests) {
        Ok(()) => put_digest_line(out, "journal sha256 ", &digests.journal),
        Err(failed) => Err(failed),
    }
}

/// Puts the lines of the digests of the frames and of the samples.
fn put_media_digests<S: Sink>(out: &mut S, digests: &Digests) -> Result<(), Failed>
    ensures { PutsText S.observable (digest_line (codes "frames sha256 ") digests.now.frames ++ digest_line (codes "samples sha256 ") digests.now.samples)
        (S.state out.old) (S.state out.new) result }
{
    match put_digest_line(out, "frames sha256 ", &digests.frames) {
        Ok(()) => put_digest_line(out, "samples sha256 ", &digests.samples),
        Err(failed) => Err(failed),
    }
}

/// Puts the line of a digest.
pub(crate) fn put_digest_line<S: Sink>(
    out: &mut S,
    word: &str,
    digest: &[u8; 32],
) -> Result<(), Failed>
    ensures { PutsText S.observable (digest_line word.now digest.now) (S.state out.old) (S.state out.new) result }
{
    let digits = hexadecimal(digest);
    put_three(out, word, &digits, "\n")
}
