//! Laws of ranks and of sets of steps for each definition.
ghost use Rattle.saga_order.specs.Shape.{shape_of};
ghost use Rattle.saga_order.specs.Laws.{StepsAreRanked, RanksRise, SetsHaveFirst, SetsHaveLast, FirstsShareRank, LastsShareRank};

use saga_def::Definition;

/// Has an empty body: its contract is the law. Each step has a rank, and a step that needs another has the greater
/// rank. A nonempty set of steps has a member with the minimum rank in the set, which needs no member. It also has a
/// member with the maximum rank, which no member needs. All such members of one set have the same rank.
pub fn order_laws(definition: &Definition)
    ensures ranked { StepsAreRanked (shape_of definition.now) }
    ensures rises { RanksRise (shape_of definition.now) }
    ensures first { SetsHaveFirst (shape_of definition.now) }
    ensures last { SetsHaveLast (shape_of definition.now) }
    ensures one_first { FirstsShareRank (shape_of definition.now) }
    ensures one_last { LastsShareRank (shape_of definition.now) }
{
    let _ = definition.steps();
}
