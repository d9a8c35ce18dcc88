// The meaning of routines, sheets and jobs, and the theorems that say that it fits together.
#![tactic(auto)]

ghost use Rattle.golog.specs.Points.{NextIsTrans, WaysIsOneWay};
ghost use Rattle.golog.specs.Positions.{LeadIsTrans};
ghost use Rattle.golog.specs.Grammar.{OneTree};
ghost use Rattle.golog.specs.Reading.{ReadingIsGrammar, MisplacedIsFirst, UnknownIsFirst, OverLimitIsFirst, BoundedIsRead, ReadIsBounded};
ghost use Rattle.golog.specs.Sheets.{PassIsAccepts, NumbersAreLeast};
ghost use Rattle.golog.specs.Sureness.{WithinIsEnding, MakeIsSure, MadeIsAccepted, PlainFinishes, PlainTracks};
ghost use Rattle.golog.specs.Cases.{TextsComeOut};

// Trans, on the trees that remain, is coming next, on points.
pub fn bridge_stands() -> u8
    ensures { NextIsTrans }
{
    0
}

// Where a possible reaction leads, Trans leads; only steps into stuck remainders are dropped.
pub fn leads_stand() -> u8
    ensures { LeadIsTrans }
{
    0
}

// The check for two ways decides whether a program has one way, and tells the lowest place.
pub fn one_way_stands() -> u8
    ensures { WaysIsOneWay }
{
    0
}

// A text has at most one tree.
pub fn one_tree_stands() -> u8
    ensures { OneTree }
{
    0
}

// Reading a text finds the tree that the grammar gives it; only a limit can come between.
pub fn reading_stands() -> u8
    ensures { ReadingIsGrammar }
{
    0
}

// A misplaced word is the first with which no routine goes on, whatever names are listed.
pub fn misplaced_stands() -> u8
    ensures { MisplacedIsFirst }
{
    0
}

// An unknown name is the first with which no routine goes on, though one would if it were listed.
pub fn unknown_stands() -> u8
    ensures { UnknownIsFirst }
{
    0
}

// A word over the limits goes on a routine, and is the first with which a limit is passed.
pub fn over_limit_stands() -> u8
    ensures { OverLimitIsFirst }
{
    0
}

// A text within the limits that the grammar gives a tree is read.
pub fn bounded_read_stands() -> u8
    ensures { BoundedIsRead }
{
    0
}

// A text that is read names known facts and acts alone, and keeps the limits all along.
pub fn read_bounds_stand() -> u8
    ensures { ReadIsBounded }
{
    0
}

// Pass's answer is that the first position has a row and every row is true, and else the lowest ground.
pub fn pass_stands() -> u8
    ensures { PassIsAccepts }
{
    0
}

// Make's numbers are the least within which one can surely come to stop.
pub fn numbers_stand() -> u8
    ensures { NumbersAreLeast }
{
    0
}

// Coming to stop surely, by positions, is having a way of choosing that ends.
pub fn ways_of_choosing_stand() -> u8
    ensures { WithinIsEnding }
{
    0
}

// Make answers that there is no sure sheet exactly when no way of choosing ends, and else the least number.
pub fn sureness_stands() -> u8
    ensures { MakeIsSure }
{
    0
}

// Pass accepts what make makes.
pub fn made_stands() -> u8
    ensures { MadeIsAccepted }
{
    0
}

// The plain job on an accepted sheet, given do and possible reactions, finishes in time and where it may stop.
pub fn plain_job_finishes() -> u8
    ensures { PlainFinishes }
{
    0
}

// The plain job on an accepted sheet keeps its count, and Trans reaches its position, after any calls.
pub fn plain_job_tracks() -> u8
    ensures { PlainTracks }
{
    0
}

// Reading, computed on short texts.
pub fn texts_come_out() -> u8
    ensures { TextsComeOut }
{
    0
}
