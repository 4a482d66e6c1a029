ghost use Rattle.std.specs.Prelude.{ℕ, List};
ghost use Rattle.std.specs.Iterator.{YieldsFirstBy, YieldsLastBy};
ghost use Rattle.std.specs.declared.option.Option.{Option};
ghost use Rattle.facet_block.specs.declared.ptr_const.PtrConst.{PtrConst};
ghost use Rattle.facet_iterate.specs.Elements.{Position, ReadInPairs, ReadInTurn, ReturnsFirst, ReturnsFirstPair, ReturnsLast, ReturnsLastPair, pair_of, position_of};
ghost use Rattle.facet_shape.specs.declared.shape.Shape.{Shape};
ghost use Rattle.facet_trees.specs.Value.{Value};

use facet_leaf::Leaf;

/// Where what is still to come reads as values in turn, `next` returns a pointer to the first of them and `next_back` one to
/// the last, and the others are still to come; where there is none, both return None.
pub fn elements_come_in_turn<L: Leaf>()
    ensures next { (shapes : List Shape) (id : ℕ) (old new : List (Position L)) (vs : List (Value L)) (result : Option (PtrConst L))
        → ReadInTurn L.model shapes id old vs → YieldsFirstBy position_of (λ (rest : List (Position L)). rest) old result new → ReturnsFirst L.model shapes id vs result new }
    ensures next_back { (shapes : List Shape) (id : ℕ) (old new : List (Position L)) (vs : List (Value L)) (result : Option (PtrConst L))
        → ReadInTurn L.model shapes id old vs → YieldsLastBy position_of (λ (rest : List (Position L)). rest) old result new → ReturnsLast L.model shapes id vs result new }
{}

/// The same of the keys and values of a map: one key and its value come at a time.
pub fn pairs_come_in_turn<L: Leaf>()
    ensures next { (shapes : List Shape) (key value : ℕ) (old new : List (Position L × Position L)) (vs : List (Value L)) (result : Option (PtrConst L × PtrConst L))
        → ReadInPairs L.model shapes key value old vs → YieldsFirstBy pair_of (λ (rest : List (Position L × Position L)). rest) old result new → ReturnsFirstPair L.model shapes key value vs result new }
    ensures next_back { (shapes : List Shape) (key value : ℕ) (old new : List (Position L × Position L)) (vs : List (Value L)) (result : Option (PtrConst L × PtrConst L))
        → ReadInPairs L.model shapes key value old vs → YieldsLastBy pair_of (λ (rest : List (Position L × Position L)). rest) old result new → ReturnsLastPair L.model shapes key value vs result new }
{}
