// One connection by value: the decision on a segment of it, and what a pass leaves (document 01, "Ranges" and "Stages"; document 02, item 6).
#![tactic(auto)]

ghost use Rattle.std.specs.Prelude.{◌≡◌, ◌+◌, ◌^◌, ◌<◌, ◌≤◌};
ghost use Rattle.choice.specs.Choice.{when◌then◌else◌, ◌≤ᵇ◌};
ghost use Rattle.connection.specs.Ends.{end_of, other_end, effective_window, sent, granted, begun, widened, ends_after};
ghost use Rattle.connection.specs.Ranges.{sequence_met, ack_range, ack_met};
ghost use Rattle.connection.specs.Stages.{longest_life, life_of, with_fin, fins_after, open_stage, stage_after};
ghost use Rattle.connection.specs.Decision.{same_syn, reply, verdict_unanswered, verdict_by_ranges, verdict_on, error_number, verdict_number, answer_on, free, opened, repeated, answered, carried, reset, passed, decided};

use segment::{Flag, Segment};
use serial::{OctetCount, SeqNum};

// Document 01's segments of stage 1, by all their flags.
const SYN: u8 = Flag::Syn as u8;

const SYN_ACK: u8 = Flag::Syn as u8 | Flag::Ack as u8;

const ACK_RST: u8 = Flag::Ack as u8 | Flag::Rst as u8;

// Which end of a connection sends.
#[derive(Clone, Copy, Debug, PartialEq, Eq)]
pub enum Sender {
    Opener,
    Answerer,
}

impl Sender {
    // The place of its record among the two.
    fn index(self) -> usize
        ensures index { result ≡ end_of self }
        ensures inside { result < 2 }
    {
        self as usize
    }

    // The end that it sends to.
    fn other(self) -> Sender
        ensures { end_of result ≡ other_end (end_of self) }
    {
        match self {
            Sender::Opener => Sender::Answerer,
            Sender::Answerer => Sender::Opener,
        }
    }
}

// A clock in ms that row 2 lets through.
#[derive(Clone, Copy, Debug)]
pub struct Clock {
    pub ms: u64,
    pub ghost in_range: { ms < 2 ^ 48 },
}

impl Clock {
    // The deadline that a pass at this clock gives an entry, by its new stage.
    fn deadline(self, stage: u8) -> u64
        ensures { result ≡ self.ms + life_of stage }
    {
        self.ms + life(stage)
    }
}

// What one end has shown, resets left out: document 01's record. By default it is a freed one.
#[derive(Clone, Copy, Debug, Default, PartialEq, Eq)]
pub struct End {
    // The highest end of a segment that it sent.
    pub end: SeqNum,
    // The highest right edge that the other end granted it.
    pub edge: SeqNum,
    // The largest window that it announced.
    pub win: OctetCount,
}

// By default it is free. Stage, side and FIN bits stay numbers: document 01 has a match on the stage number with ranges, and lent bytes,
// as the program `bounds`, give a connection any of them.
#[derive(Clone, Copy, Debug, Default, PartialEq, Eq)]
pub struct Connection {
    // 1 unanswered, 2 answered, 3 open, 4 one FIN, 5 both, 6 reset; 0 is a free connection.
    pub stage: u8,
    // The side that the opener is on.
    pub side: u8,
    // Bit 0: the opener sent FIN; bit 1: the answerer did.
    pub fins: u8,
    pub deadline: u64,
    // The opener's record, then the answerer's.
    pub ends: [End; 2],
}

// Why a segment of a matched connection is blocked, by document 01's numbers.
#[derive(Clone, Copy, Debug, PartialEq, Eq)]
pub enum SegmentError {
    // None of the three segments that stage 1 allows.
    NotAllowed = 13,
    // Sequence range missed.
    SequenceMissed = 14,
    // Acknowledgement range missed.
    AckMissed = 15,
}

impl SegmentError {
    // The answer that document 01 numbers.
    pub fn number(self) -> u32
        ensures { result ≡ error_number self }
    {
        self as u32
    }
}

// The life of a stage in ms.
#[tactic(auto, using(choice::proofs::Choice::when_cond), unfolding(crate::specs::Stages::life_of))]
pub fn life(stage: u8) -> u64
    ensures life { result ≡ life_of stage }
    ensures longest { result ≤ longest_life }
{
    match stage {
        1..=2 => 60_000,
        3 => 432_000_000,
        4 => 3_600_000,
        5 => 240_000,
        6 => 10_000,
        _ => 0,
    }
}

// Document 01's w, as it counts: unscaled today.
fn effective_window(segment: Segment) -> OctetCount
    ensures { result ≡ effective_window segment }
{
    segment.window
}

impl End {
    // The sender's record after a segment of its own.
    #[tactic(auto, unfolding(crate::specs::Ends::sent))]
    pub fn sent(self, segment: Segment) -> End
        ensures { result ≡ sent self segment }
    {
        End {
            end: self.end.further(self.end, segment.seq + segment.octets),
            ..self.widened(segment)
        }
    }

    // The record after an acknowledging segment of the other end.
    #[tactic(auto, unfolding(crate::specs::Ends::granted))]
    pub fn granted(self, segment: Segment) -> End
        ensures { result ≡ granted self segment }
    {
        End {
            edge: self.end.further(
                self.edge,
                segment.ack + effective_window(segment).max(OctetCount(1)),
            ),
            ..self
        }
    }

    // The record that an end's SYN begins.
    pub fn begun(segment: Segment) -> End
        ensures { result ≡ begun segment }
    {
        let end = segment.seq + OctetCount(1);
        End {
            end,
            edge: end,
            win: effective_window(segment).max(OctetCount(1)),
        }
    }

    // The record with a segment's window, if that is the largest so far: all that the same SYN again changes.
    pub fn widened(self, segment: Segment) -> End
        ensures { result ≡ widened self segment }
    {
        End {
            win: self.win.max(effective_window(segment)),
            ..self
        }
    }
}

// Bounds I and II.
#[tactic(auto, unfolding(crate::specs::Ranges::sequence_met))]
fn sequence_met(from: End, to: End, segment: Segment) -> bool
    ensures { result ≡ sequence_met from to segment }
{
    let low = from.end - to.win;
    (segment.seq - low).within(segment.octets, from.edge - low)
}

// Bounds III and IV.
#[tactic(auto, unfolding(crate::specs::Ranges::ack_met))]
fn ack_met(to: End, segment: Segment) -> bool
    ensures { result ≡ ack_met ack_range to segment }
{
    to.end - segment.ack <= OctetCount(66_000)
}

// The FIN bits with the sender's set: bit 0 the opener's, bit 1 the answerer's.
#[tactic(auto, using(choice::proofs::Choice::when_cond, crate::proofs::Fins::or_1, crate::proofs::Fins::or_2), unfolding(crate::specs::Stages::with_fin))]
fn with_fin(fins: u8, sender: Sender) -> u8
    ensures { result ≡ with_fin fins (end_of sender) }
{
    match sender {
        Sender::Opener => fins | 1,
        Sender::Answerer => fins | 2,
    }
}

// The FIN bits after a segment.
#[tactic(auto, using(choice::proofs::Choice::when_cond), unfolding(crate::specs::Stages::fins_after))]
fn fins_after(fins: u8, sender: Sender, segment: Segment) -> u8
    ensures { result ≡ fins_after fins (end_of sender) segment.flags }
{
    if segment.has(Flag::Fin) {
        with_fin(fins, sender)
    } else {
        fins
    }
}

// The stage after a segment where no FIN bit is set.
#[tactic(auto, using(choice::proofs::Choice::when_cond), unfolding(crate::specs::Stages::open_stage))]
fn open_stage(stage: u8, sender: Sender, segment: Segment) -> u8
    ensures { result ≡ open_stage stage (end_of sender) segment.flags }
{
    match (stage, sender) {
        (3 | 6, _) => 3,
        (_, Sender::Opener) if segment.has(Flag::Ack) && !segment.has(Flag::Syn) => 3,
        _ => 2,
    }
}

// The stage after a segment, by the FIN bits after it.
#[tactic(auto, using(choice::proofs::Choice::when_cond), unfolding(crate::specs::Stages::stage_after))]
fn stage_after(stage: u8, fins: u8, sender: Sender, segment: Segment) -> u8
    ensures { result ≡ stage_after stage fins (end_of sender) segment.flags }
{
    match fins {
        3 => 5,
        1..=2 => 4,
        _ => open_stage(stage, sender, segment),
    }
}

impl Connection {
    // The connection that an opening SYN makes.
    #[tactic(auto, unfolding(crate::specs::Decision::opened))]
    pub fn opened(side: u8, segment: Segment, clock: Clock) -> Connection
        ensures { result ≡ opened side segment clock.ms }
    {
        let answerer = End {
            win: OctetCount(1),
            ..End::default()
        };
        Connection {
            stage: 1,
            side,
            fins: 0,
            deadline: clock.deadline(1),
            ends: [End::begun(segment), answerer],
        }
    }

    // Sender and segment are given apart, as the definitions have them.

    // Whether a segment is the opener's SYN again.
    #[tactic(auto, unfolding(crate::specs::Decision::same_syn))]
    fn same_syn(self, sender: Sender, segment: Segment) -> bool
        ensures { result ≡ same_syn self (end_of sender) segment }
    {
        match (sender, segment.flags) {
            (Sender::Opener, SYN) => segment.seq == self.ends[0].end - OctetCount(1),
            _ => false,
        }
    }

    // Whether a segment is the answerer's reply to the SYN: SYN+ACK or ACK+RST.
    #[tactic(auto, unfolding(crate::specs::Decision::reply))]
    fn reply(self, sender: Sender, segment: Segment) -> bool
        ensures { result ≡ reply self (end_of sender) segment }
    {
        match (sender, segment.flags) {
            (Sender::Answerer, SYN_ACK | ACK_RST) => segment.ack == self.ends[0].end,
            _ => false,
        }
    }

    // Row 13, or a pass, in stage 1.
    #[tactic(auto, using(choice::proofs::Choice::when_cond), unfolding(crate::specs::Decision::verdict_unanswered))]
    fn unanswered(self, sender: Sender, segment: Segment) -> Result<(), SegmentError>
        ensures { result ≡ verdict_unanswered self (end_of sender) segment }
    {
        if self.same_syn(sender, segment) || self.reply(sender, segment) {
            Ok(())
        } else {
            Err(SegmentError::NotAllowed)
        }
    }

    // Rows 14 and 15, or a pass.
    #[tactic(auto, using(choice::proofs::Choice::when_cond), unfolding(crate::specs::Decision::verdict_by_ranges))]
    fn ranges(self, sender: Sender, segment: Segment) -> Result<(), SegmentError>
        ensures { result ≡ verdict_by_ranges self (end_of sender) segment }
    {
        let from = self.ends[sender.index()];
        let to = self.ends[sender.other().index()];
        if !sequence_met(from, to, segment) {
            Err(SegmentError::SequenceMissed)
        } else if segment.has(Flag::Ack) && !ack_met(to, segment) {
            Err(SegmentError::AckMissed)
        } else {
            Ok(())
        }
    }

    // Rows 13 to 15, or a pass.
    #[tactic(auto, using(choice::proofs::Choice::when_cond), unfolding(crate::specs::Decision::verdict_on))]
    fn verdict(self, sender: Sender, segment: Segment) -> Result<(), SegmentError>
        ensures verdict { result ≡ verdict_on self (end_of sender) segment }
        ensures answer { verdict_number result ≡ answer_on self (end_of sender) segment }
    {
        match self.stage {
            1 => self.unanswered(sender, segment),
            _ => self.ranges(sender, segment),
        }
    }

    // After the same SYN again.
    #[tactic(auto, unfolding(crate::specs::Decision::repeated))]
    fn repeated(self, segment: Segment, clock: Clock) -> Connection
        ensures { result ≡ repeated self segment clock.ms }
    {
        let [opener, answerer] = self.ends;
        Connection {
            stage: 1,
            fins: 0,
            deadline: clock.deadline(1),
            ends: [opener.widened(segment), answerer],
            ..self
        }
    }

    // After the SYN+ACK.
    #[tactic(auto, unfolding(crate::specs::Decision::answered))]
    fn answered(self, segment: Segment, clock: Clock) -> Connection
        ensures { result ≡ answered self segment clock.ms }
    {
        Connection {
            stage: 2,
            fins: 0,
            deadline: clock.deadline(2),
            ends: [self.ends[0].granted(segment), End::begun(segment)],
            ..self
        }
    }

    // The two records after a segment from stage 2 on.
    #[tactic(auto, using(choice::proofs::Choice::when_cond), unfolding(crate::specs::Ends::ends_after))]
    fn ends_after(self, sender: Sender, segment: Segment) -> [End; 2]
        ensures { result ≡ ends_after self.ends (end_of sender) segment }
    {
        let from = sender.index();
        let to = sender.other().index();
        let mut ends = self.ends;
        ends[from] = self.ends[from].sent(segment);
        if segment.has(Flag::Ack) {
            ends[to] = self.ends[to].granted(segment);
        }
        ends
    }

    // After a segment from stage 2 on.
    #[tactic(auto, unfolding(crate::specs::Decision::carried))]
    fn carried(self, sender: Sender, segment: Segment, clock: Clock) -> Connection
        ensures { result ≡ carried self (end_of sender) segment clock.ms }
    {
        let fins = fins_after(self.fins, sender, segment);
        let stage = stage_after(self.stage, fins, sender, segment);
        Connection {
            stage,
            fins,
            deadline: clock.deadline(stage),
            ends: self.ends_after(sender, segment),
            ..self
        }
    }

    // After a reset from stage 2 on: the far end may not get it, so the connection goes on as it was, for a short life.
    #[tactic(auto, unfolding(crate::specs::Decision::reset))]
    fn reset(self, clock: Clock) -> Connection
        ensures { result ≡ reset self clock.ms }
    {
        Connection {
            stage: 6,
            deadline: clock.deadline(6),
            ..self
        }
    }

    // After any reset: in stage 1 it frees the connection.
    #[tactic(auto, using(choice::proofs::Choice::when_cond, crate::proofs::Default::free_by_default))]
    fn after_reset(self, clock: Clock) -> Connection
        ensures { result ≡ (when 2 ≤ᵇ self.stage then reset self clock.ms else free) }
    {
        match self.stage {
            0..=1 => Connection::default(),
            _ => self.reset(clock),
        }
    }

    // The connection that a pass at this clock used leaves.
    #[tactic(auto, using(choice::proofs::Choice::when_cond), unfolding(crate::specs::Decision::passed))]
    fn passed(self, sender: Sender, segment: Segment, clock: Clock) -> Connection
        ensures { result ≡ passed self (end_of sender) segment clock.ms }
    {
        match (self.stage, sender) {
            _ if segment.has(Flag::Rst) => self.after_reset(clock),
            (1, Sender::Opener) => self.repeated(segment, clock),
            (1, Sender::Answerer) => self.answered(segment, clock),
            _ => self.carried(sender, segment, clock),
        }
    }

    // The connection that a pass of the sender's segment leaves, or row 13, 14 or 15.
    #[tactic(auto, unfolding(crate::specs::Decision::decided))]
    pub fn decide(
        self,
        sender: Sender,
        segment: Segment,
        clock: Clock,
    ) -> Result<Connection, SegmentError>
        ensures decided { result ≡ decided self (end_of sender) segment clock.ms }
        ensures answer { verdict_number result ≡ answer_on self (end_of sender) segment }
    {
        self.verdict(sender, segment)?;
        Ok(self.passed(sender, segment, clock))
    }
}
