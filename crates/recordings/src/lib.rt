// Whole recordings as document 01 defines them: what the crates that read and convert recordings cite, in specs/, and what is claimed of them,
// each theorem as the contract of a function that computes nothing.
#![tactic(auto)]

ghost use Rattle.recordings.specs.Recordings.{read_recording};
ghost use Rattle.recordings.specs.Conversion.{convert_call};
ghost use Rattle.recordings.specs.Claims.{ReadsRecordings, ReadersAgree};
ghost use Rattle.recordings.specs.WrongRecordingReaders.{WrongRecordingReaders};
ghost use Rattle.recordings.specs.ConversionClaims.{ConvertsFrames};
ghost use Rattle.recordings.specs.Demand3.{Demand3, RestsOnDemand2};
ghost use Rattle.recordings.specs.ThreeBits.{ThreeIsSharp};
ghost use Rattle.recordings.specs.WrongConverters.{first_only, drops_last, inverts_d0, counts_one_more, wants_one_more};
ghost use Rattle.recordings.specs.Viewer.{open_call, next_call};
ghost use Rattle.recordings.specs.ViewerClaims.{ViewsRecordings, ViewersAgree};
ghost use Rattle.recordings.specs.WrongViewers.{passes_refused, skips_frames, numbers_none};
ghost use Rattle.recordings.specs.Report.{report_call};
ghost use Rattle.recordings.specs.ReportClaims.{AddsUp, Reports};
ghost use Rattle.recordings.specs.WrongReports.{lost_before_reading, counts_as_speech};

// Does nothing. Its contract: octets are read as frames exactly where they are the frames' recording, and each refusal comes on its condition and
// on no other, with the place of the first refused frame; readers of which this is true answer the same; and a reader that always declines, one
// that ends at a refused frame, and one that names no place are not such readers.
pub fn reader_claim()
    ensures { ReadsRecordings read_recording × ReadersAgree × WrongRecordingReaders }
{}

// Does nothing. Its contract: demand 2 of a converter, that it writes and counts the frames which it read, as they are carried over, and that each
// refusal comes on its condition only; and that the converter which drops the last frame, the one which inverts d(0) of each, the one which counts a
// frame too many, and the one which refuses a buffer that fits, do not meet it.
pub fn conversion_claim()
    ensures { ConvertsFrames convert_call
        × (ConvertsFrames drops_last → ⊥)
        × (ConvertsFrames inverts_d0 → ⊥)
        × (ConvertsFrames counts_one_more → ⊥)
        × (ConvertsFrames wants_one_more → ⊥) }
{}

// Does nothing. Its contract: demand 3, which every converter that meets demand 2 meets, and that the converter which copies the first frame and
// counts the others does not meet it.
pub fn demand_three_claim()
    ensures { RestsOnDemand2 × Demand3 convert_call × (Demand3 first_only → ⊥) }
{}

// Does nothing. Its contract: two valid IF1 recordings of a good frame can differ in exactly three of its Class A and CRC bits, here d(0), d(1) and
// d(25) of type 0, so that demand 3's three is the most that holds.
pub fn three_bits_claim()
    ensures { ThreeIsSharp }
{}

// Does nothing. Its contract: a viewer that is opened hands out, over any number of calls, the recording's frames and then the end for ever,
// or the frames in front of the first refused one and then that refusal for ever; each answer of opening and of a call comes on its condition
// only, so that viewers of which this is true answer the same; and that the viewer which goes on behind a refused frame, the one which shows every
// second frame, and the one which hands on number 0, are not such viewers.
pub fn viewer_claim()
    ensures { ViewsRecordings open_call next_call
        × ViewersAgree
        × (ViewsRecordings open_call passes_refused → ⊥)
        × (ViewsRecordings open_call skips_frames → ⊥)
        × (ViewsRecordings open_call numbers_none → ⊥) }
{}

// Does nothing. Its contract: in a report the four classes add up to the frames; the report of a recording counts its frames, and each refusal
// comes on its condition only; and that the report which counts a lost frame before it reads, and the one which counts every frame as speech, do
// not meet this.
pub fn report_claim()
    ensures { AddsUp report_call
        × Reports report_call
        × (Reports lost_before_reading → ⊥)
        × (Reports counts_as_speech → ⊥) }
{}
