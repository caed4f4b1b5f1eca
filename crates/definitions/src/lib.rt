// The paper in antt: what a frame is, how it is read and built, and the codec's order of its bits; and what a program does over a list of calls.
// The definitions that every contract above cites are in specs/, in document 01's order, and their theorems in proofs/. The functions here compute
// nothing: each carries a theorem as its contract, so that none can go unseen.
#![tactic(auto)]

ghost use Rattle.std.specs.Prelude.{true, false};
ghost use Rattle.definitions.specs.Frames.{layout};
ghost use Rattle.definitions.specs.Reading.{read_frame, read_with, read_call, build_frame};
ghost use Rattle.definitions.specs.Order.{none_missing, to_core_call, to_row_call};
ghost use Rattle.definitions.specs.Claims.{ReadsFrames, ReadsOneFrame, ReadsCalls, LayoutsDiffer, BuildsFrames, TablesPermute, TestsTables, OrdersBack, OrdersByTables, LeavesUnread};
ghost use Rattle.definitions.specs.Refusals.{RefusesFrames, RefusesCalls, RefusesBuilds, RefusesOrders, AnswersFixed};
ghost use Rattle.definitions.specs.WrongReaders.{WrongReaders, WrongSingleReaders, WrongRefusals, WrongCalls};
ghost use Rattle.definitions.specs.WrongBuilders.{WrongLayouts, WrongBuilders};
ghost use Rattle.definitions.specs.WrongOrders.{WrongOrders};
ghost use Rattle.definitions.specs.Reception.{frame_class, ClassifiesFrames, ClassesFixed};
ghost use Rattle.definitions.specs.WrongClassifiers.{sti_at_34, sti_before_quality};
ghost use Rattle.definitions.specs.Bench.{bench_answer, BenchCases, BenchRows};
ghost use Rattle.definitions.specs.WrongAnswerers.{mode_low_bit_first, crc_of_whole_octets, if2_header_stored, no_added_one};

// Does nothing. Its contract: demand 2 for a frame that is read where more may follow, each refusal on its condition, and wrong
// readers, such as one that gives 7 where 5 applies.
pub fn reader_claim()
    ensures { ReadsFrames read_frame × RefusesFrames false read_frame × WrongReaders × WrongRefusals }
{}

// Does nothing. Its contract: the same for a reader of a single frame.
pub fn single_reader_claim()
    ensures { ReadsOneFrame (read_with true) × RefusesFrames true (read_with true) × WrongSingleReaders }
{}

// Does nothing. Its contract: the same for the call that reads a single frame by the format's number, its core into a buffer; a call that says
// "too short" for a buffer that fits is wrong.
pub fn frame_call_claim()
    ensures { ReadsCalls read_call × RefusesCalls read_call × WrongCalls }
{}

// Does nothing. Its contract: no layout begins another, so that layouts are injective; one without the quality is wrong.
pub fn layout_claim()
    ensures { LayoutsDiffer layout × WrongLayouts }
{}

// Does nothing. Its contract: demand 2 for a call that builds a frame, each refusal on its condition, and wrong builders.
pub fn builder_claim()
    ensures { BuildsFrames build_frame × RefusesBuilds build_frame × WrongBuilders }
{}

// Does nothing. Its contract: the claims of readers, of the call, of the builder and of codec order fix each answer.
pub fn answers_claim()
    ensures { AnswersFixed }
{}

// Does nothing. Its contract: the tables of codec order are permutations, as is a sheet that lacks no number; by either, each of the two calls undoes
// the other, and the core's bits are the row's by the table; modes 0 to 4 leave the sheet unread, each refusal comes on its condition, and wrong
// orders.
pub fn order_claim()
    ensures { TablesPermute × TestsTables none_missing × OrdersBack to_core_call to_row_call × OrdersByTables to_core_call × LeavesUnread to_core_call × LeavesUnread to_row_call × RefusesOrders to_core_call to_row_call × WrongOrders }
{}

// Does nothing. Its contract: the reception class of a frame is told by its type, its quality and the STI bit of a SID frame alone; this decides the
// class of every frame that a format can hold; and a classifier which takes d(34) for STI, or which tells SID frames by STI before quality, fails it.
pub fn class_claim()
    ensures { ClassifiesFrames frame_class × ClassesFixed × (ClassifiesFrames sti_at_34 → ⊥) × (ClassifiesFrames sti_before_quality → ⊥) }
{}

// Does nothing. Its contract: document 01's bench cases that are marked P; those of codec order also of every row.
pub fn bench_claim()
    ensures { BenchCases bench_answer × BenchRows }
{}

// Does nothing. Its contract: a program that makes one of the errors met in the field fails the bench cases. One writes the mode of a SID frame
// low bit first, one takes the CRC over whole octets, one gives stored frames IF2's header, and one does not add 1 to a table's numbers.
pub fn field_errors_claim()
    ensures { (BenchCases mode_low_bit_first → ⊥) × (BenchCases crc_of_whole_octets → ⊥) × (BenchCases if2_header_stored → ⊥) × (BenchCases no_added_one → ⊥) }
{}
