// What holds of all frames. A call of these functions does nothing: what they ensure are facts about the rules that the contracts of
// this crate cite.
ghost use Rattle.values.specs.Blocks.{block_kind};
ghost use Rattle.values.specs.Coefficients.{coefficient_kind};
ghost use Rattle.values.specs.Modes.{mode_kind};
ghost use Rattle.frames.specs.Layouts.{FramesCarry, OnlyFramesCarry};
ghost use Rattle.frames.specs.Reading.{ReadsBack, AcceptsOnlyFrames};
ghost use Rattle.frames.specs.Worked.{MinusTwoTravels, FetchOfTwoSites, BlockOfEightSites};

use values::block::Block;
use values::coefficient::Coefficient;
use values::kind::ValueKind;
use values::mode::Mode;

/// Any list of fields, whatever their widths: a frame carries its fields, and only it carries them.
pub fn layouts()
    ensures carry { FramesCarry }
    ensures only { OnlyFramesCarry }
{}

/// At every value kind: a frame that was written reads back as its message, and bytes that are accepted as a message are its frame.
pub fn inverse<V: ValueKind>()
    ensures back { ReadsBack V.kind }
    ensures only { AcceptsOnlyFrames V.kind }
{}

/// The same at each of the kinds that there are.
pub fn inverse_at_each_kind()
    ensures coefficients { (ReadsBack coefficient_kind) × (AcceptsOnlyFrames coefficient_kind) }
    ensures blocks { (ReadsBack block_kind) × (AcceptsOnlyFrames block_kind) }
    ensures modes { (ReadsBack mode_kind) × (AcceptsOnlyFrames mode_kind) }
{
    inverse::<Coefficient>();
    inverse::<Block>();
    inverse::<Mode>();
}

/// The lengths of two frames, and one frame byte by byte.
pub fn worked()
    ensures fetch { FetchOfTwoSites }
    ensures block { BlockOfEightSites }
    ensures bytes { MinusTwoTravels }
{}
