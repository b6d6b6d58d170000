//! Judging the lines of a reader as an explanation of a tag. Each line names a step that leads to a further tag, with
//! the text of that tag, for example `Language 1 4 he-IL`; the last tells the end, for example `= he-IL`. A verdict is
//! settled once no further line can change it.
ghost use Rattle.std.specs.Prelude.{◌<◌, ◌+◌, ◌^◌, ◌≡◌, IfOk, OnOk, length};
ghost use Rattle.lt_registry.specs.Validity.{IsProper};
ghost use Rattle.lt_answers.specs.Judging.{IsProperIf, end_verdict};
ghost use Rattle.lt_answers.specs.Verifying as spec;

use crate::judging::{Flow, judge_front, judge_line};
use crate::verdicts::Verdict;
use lt_jar::Device;
use lt_registry::Lookup;
use lt_rows::split_first;
use lt_stream::{Pieces, ToolFault, run_pieces};
use lt_tag::{OutOfMemory, Tag};
use std::alloc::Global;
use std::io::Read;

/// Lines that come in pieces, and what they lead to.
#[derive(Drop)]
pub(crate) struct Following {
    /// The front of the last line, which no line feed ended so far: its bytes up to here.
    kept: Vec<u8>,
    /// The tag to which the lines before that lead, or None after the line of the end.
    here: Option<Tag>,
    /// The number of the line that comes next, counted from 1.
    number: u64,
}

impl Following {
    /// The beginning of an explanation of `tag`, before line 1.
    fn new(alloc: Global, tag: &Tag) -> Result<Following, OutOfMemory>
        ensures { IfOk result (spec.Begins tag.now) }
    {
        Ok(Following {
            kept: Vec::new(alloc),
            here: Some(tag.copy(alloc)?),
            number: 1,
        })
    }

    /// Appends a further part of the line to the front that is kept.
    fn keep(&mut self, part: &[u8]) -> Result<(), OutOfMemory>
        ensures { OnOk result (spec.KeepsMore part.now self.old self.new) }
    {
        self.kept.extend_from_slice(part)?;
        Ok(())
    }

    /// Goes on to the next line. `here` is the tag to which the last line led, or None if that line was the end of the
    /// explanation. The number of the next line must fit into 64 bits.
    fn go_on(&mut self, here: Option<Tag>)
        requires { self.old.number + 1 < 2 ^ 64 }
        ensures { spec.GoesTo here self.old self.new }
    {
        self.kept.clear();
        self.number += 1;
        self.here = here;
    }

    /// Judges the line that is kept, and goes on to the next one. None if no verdict is settled yet. The tag to which the lines
    /// lead must be proper, as `judge_line` requires, and the number of the next line must fit into 64 bits.
    #[tactic(auto, using(crate::proofs::FollowingLemmas::ends_on, crate::proofs::FollowingLemmas::leads_on))]
    fn judge_kept<L: Lookup>(
        &mut self,
        alloc: Global,
        table: &L,
    ) -> Result<Option<Verdict>, OutOfMemory>
        requires proper { IsProperIf (L.listed table.now) self.old.here }
        requires room { self.old.number + 1 < 2 ^ 64 }
        ensures { IfOk result (spec.JudgesKept (L.listed table.now) self.old self.new) }
    {
        let Some(here) = &self.here else {
            return Ok(Some(Verdict::BadStep(self.number)));
        };
        match judge_line(alloc, table, self.number, here, &self.kept)? {
            Flow::Settled(verdict) => Ok(Some(verdict)),
            Flow::Ends => {
                self.go_on(None);
                Ok(None)
            }
            Flow::Leads(next) => {
                self.go_on(Some(next));
                Ok(None)
            }
        }
    }

    /// Judges the line of which the front is kept. It gives a verdict only if the line can't be right however it goes
    /// on; else None, also for a short front. The tag to which the lines lead must be proper.
    fn judge_rest<L: Lookup>(
        &self,
        alloc: Global,
        table: &L,
    ) -> Result<Option<Verdict>, OutOfMemory>
        requires { IsProperIf (L.listed table.now) self.now.here }
        ensures { IfOk result (spec.SettlesKept (L.listed table.now) self.now) }
    {
        let Some(here) = &self.here else {
            if self.kept.is_empty() {
                return Ok(None);
            }
            return Ok(Some(Verdict::BadStep(self.number)));
        };
        judge_front(alloc, table, self.number, here, &self.kept)
    }

    /// Takes the next bytes, and judges the lines that they end and the front of the line after those. None if no
    /// verdict is settled yet. The tag to which the lines lead must be proper. The number of the line that comes next,
    /// plus the length of the piece (each byte of which may end a line) and one, must fit into 64 bits.
    #[tactic(auto, using(crate::proofs::FollowingLemmas::first_turn, crate::proofs::FollowingLemmas::turn_proper, crate::proofs::FollowingLemmas::next_turn, crate::proofs::FollowingLemmas::turn_room))]
    fn take_piece<L: Lookup>(
        &mut self,
        alloc: Global,
        table: &L,
        piece: &[u8],
    ) -> Result<Option<Verdict>, OutOfMemory>
        requires proper { IsProperIf (L.listed table.now) self.old.here }
        requires room { self.old.number + length piece.now + 1 < 2 ^ 64 }
        ensures { IfOk result (spec.TakesPiece (L.listed table.now) piece.now self.old self.new) }
    {
        let mut rest = piece;
        while let Some((part, after)) = split_first(b'\n', rest) {
            self.keep(part)?;
            if let Some(verdict) = self.judge_kept(alloc, table)? {
                return Ok(Some(verdict));
            }
            rest = after;
        }
        self.keep(rest)?;
        self.judge_rest(alloc, table)
    }

    /// The verdict if no line follows: right if the explanation has ended, else a bad step.
    fn at_end(&self) -> Verdict
        ensures { result ≡ end_verdict self.now.number self.now.here }
    {
        match self.here {
            Some(_) => Verdict::BadStep(self.number),
            None => Verdict::Right,
        }
    }

    /// The verdict if no more bytes come. It judges a last line that no line feed ended. The tag to which the lines lead must
    /// be proper, and the number of a line after it must fit into 64 bits.
    fn finish<L: Lookup>(&mut self, alloc: Global, table: &L) -> Result<Verdict, OutOfMemory>
        requires proper { IsProperIf (L.listed table.now) self.old.here }
        requires room { self.old.number + 1 < 2 ^ 64 }
        ensures { IfOk result (spec.JudgesEnd (L.listed table.now) self.old) }
    {
        if self.kept.is_empty() {
            return Ok(self.at_end());
        }
        match self.judge_kept(alloc, table)? {
            Some(verdict) => Ok(verdict),
            None => Ok(self.at_end()),
        }
    }
}

/// Lines, and the table by which they are judged.
#[derive(Drop)]
struct Verifying<'a, L> {
    table: &'a L,
    following: Following,
}

impl<'a, L: Lookup> Pieces<()> for Verifying<'a, L> {
    type Answer = Verdict;

    /// Between two pieces the table is that of the beginning, and no verdict is settled by the bytes that were read.
    ghost taken = { λ first _ _ read here. (L.listed here.table.now ≡ L.listed first.table.now) × spec.IsFollowed (L.listed first.table.now) first.following read here.following };

    /// A piece ends the run where the bytes so far settle the verdict, whatever follows, or where memory runs out.
    ghost stopped = { λ first _ _ read _ result. spec.Settles (L.listed first.table.now) first.following read result };

    /// At the end the verdict is that on all bytes, or memory runs out.
    ghost finished = { λ first _ _ read _ result. spec.JudgesAll (L.listed first.table.now) first.following read result };

    /// Judges the lines that the piece ends and the front of the line after those. The first that settles the verdict
    /// ends the run; if none does, it gives None. Refused where memory runs out.
    fn take_piece(
        &mut self,
        alloc: Global,
        piece: &[u8],
        _output: &mut (),
    ) -> Result<Option<Verdict>, ToolFault> {
        Ok(self.following.take_piece(alloc, self.table, piece)?)
    }

    /// Judges a last line without a line feed, if there is one, and gives the verdict.
    fn finish(&mut self, alloc: Global, _output: &mut ()) -> Result<Verdict, ToolFault> {
        Ok(self.following.finish(alloc, self.table)?)
    }
}

/// Judges the lines of a reader as an explanation of a tag (RFC 5646, 4.5). For example, the lines `Language 1 4 he-IL`
/// and `= he-IL` explain `iw-IL` if record 4 has the value `he` for `iw`. The tag must be proper by the table: valid,
/// except that it may repeat variants.
///
/// The lines are read up to the first that settles the verdict, or to the end. Of an unfinished line at most 38 bytes
/// are kept, or as many as a right line has, besides the bytes of one read. After the line of the end nothing is kept.
///
/// - `Read`, if a read fails.
/// - `TooManyTurns`, if all 10,000,000 reads were made and the last gave bytes.
/// - `OutOfMemory`, if memory runs out.
pub fn verify_lines<L: Lookup, R: Read>(
    alloc: Global,
    table: &L,
    tag: &Tag,
    input: &mut Device<R>,
) -> Result<Verdict, ToolFault>
    requires { IsProper (L.listed table.now) tag.now }
    ensures { spec.VerifiesLines (L.listed table.now) tag.now R.remaining input.old input.new result }
{
    let mut verifying = Verifying {
        table,
        following: Following::new(alloc, tag)?,
    };
    run_pieces(alloc, &mut verifying, input, &mut ())
}
