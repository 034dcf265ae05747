// The line of a refused text, and all that a program writes: what its report wrote, or that line.
ghost use Rattle.std.specs.Prelude.{◌+◌, ◌≤◌, length};
ghost use Rattle.write.specs.Writes.{HasRoom, AtMost, Writes};
ghost use Rattle.write.specs.Refused.{refused_line, refused_room};
ghost use Rattle.write.specs.AnswerStands.{AnswerStandsBy};

use crate::Writer;
use rules::Reason;

impl Writer<'_> {
    // The line `refused,number,place`.
    #[tactic(auto, using(crate::proofs::FieldLaws::field_short))]
    pub fn refused_by(&mut self, number: u32, place: u32)
        requires { HasRoom self.old refused_room }
        ensures wrote { Writes self.old (refused_line number place) self.new }
        ensures upper_bound { AtMost self.old refused_room self.new }
    {
        self.named(b"refused", number as u64);
        self.field(place as u64);
        self.byte(b'\n');
    }

    // The line of a refusal, or of any number and place.
    pub fn refused<R: Reason>(&mut self, refusal: R)
        requires { HasRoom self.old refused_room }
        ensures wrote { Writes self.old (refused_line (R.number refusal) (R.place refusal)) self.new }
        ensures upper_bound { AtMost self.old refused_room self.new }
    {
        let (number, place) = refusal.told();
        self.refused_by(number, place);
    }
}

// A report's answer, with a refusal or any number and place for one: its lines stand in the buffer already, so many bytes; a refusal's line is
// written to its start.
pub fn put_answer<R: Reason>(out: &mut [u8], answer: Result<usize, R>) -> usize
    requires { refused_room ≤ length out.old }
    ensures { AnswerStandsBy R.number R.place answer out.old out.new result }
{
    match answer {
        Ok(n) => n,
        Err(refusal) => {
            let mut w = Writer::new(out, 0);
            w.refused(refusal);
            w.end()
        }
    }
}
