ghost use Rattle.std.specs.Prelude.{◌≡◌, IsTrue, IfOk, MatchResult, Some, ok_or};
ghost use Rattle.std.specs.Str.{IsUtf8};
ghost use Rattle.facet_base.specs.Write.{HoldsText};
ghost use Rattle.facet_leaf.specs.hashing.HashWrite.{fed_all};
ghost use Rattle.facet_leaf.specs.LeafModel.{LeafModel};
ghost use Rattle.facet_leaf.specs.LeafLaws.{LeafLaws};

use crate::conversion::{Conversion, NoRoom};
use crate::hashing::hash_sink::HashSink;
use crate::hook::LeafHook;
use facet_base::{Characteristic, ParseError, ScalarType, Write};
use std::alloc::{AllocError, Global};
use std::cmp::Ordering;

/// A stored scalar. One record says what each method returns, and what stands on leaves knows them by that
/// record alone. A method that goes with a capability or a hook requires that the kind has it, and one on two
/// leaves requires that they are of one kind.
pub trait Leaf: Sized + Drop {
    /// What the methods return.
    ghost model: { LeafModel Self };

    /// Whether leaves of a kind have a capability.
    fn can(kind: ScalarType, c: Characteristic) -> bool
        ensures { result ≡ model.can kind c };

    /// Whether leaves of a kind have a hook.
    fn hook(kind: ScalarType, h: LeafHook) -> bool
        ensures { result ≡ model.hook kind h };

    /// The kind of the leaf.
    fn kind(&self) -> ScalarType
        ensures { result ≡ model.kind self.now };

    /// Whether two leaves are equal.
    fn same(&self, other: &Self) -> bool
        requires can { IsTrue (model.can (model.kind self.now) Characteristic.PartialEq) }
        requires one_kind { model.kind self.now ≡ model.kind other.now }
        ensures { result ≡ model.same self.now other.now };

    /// How two leaves are ordered, where they are.
    fn partial_order(&self, other: &Self) -> Option<Ordering>
        requires can { IsTrue (model.can (model.kind self.now) Characteristic.PartialOrd) }
        requires one_kind { model.kind self.now ≡ model.kind other.now }
        ensures { result ≡ model.partial_order self.now other.now };

    /// How two leaves are ordered.
    fn order(&self, other: &Self) -> Ordering
        requires can { IsTrue (model.can (model.kind self.now) Characteristic.Ord) }
        requires one_kind { model.kind self.now ≡ model.kind other.now }
        ensures { result ≡ model.order self.now other.now };

    /// Feeds a sink with the leaf's writes.
    fn hash_into<H: HashSink>(&self, sink: &mut H)
        requires { IsTrue (model.can (model.kind self.now) Characteristic.Hash) }
        ensures { sink.new ≡ fed_all H.fed sink.old (model.writes self.now) };

    /// Writes the debug text. A refusal leaves the beginning of it.
    fn write_debug<W: Write>(&self, out: &mut W) -> Result<(), AllocError>
        ensures written { HoldsText (W.contents out.old) (W.contents out.new) (model.debug self.now) result }
        ensures utf8 { IsUtf8 (model.debug self.now) };

    /// Writes the display text. A refusal leaves the beginning of it.
    fn write_display<W: Write>(&self, out: &mut W) -> Result<(), AllocError>
        requires { IsTrue (model.can (model.kind self.now) Characteristic.Display) }
        ensures written { HoldsText (W.contents out.old) (W.contents out.new) (model.display self.now) result }
        ensures utf8 { IsUtf8 (model.display self.now) };

    /// The leaf of a kind that a text is, where it is one.
    fn parse(
        alloc: Global,
        kind: ScalarType,
        text: &str,
    ) -> Result<Result<Self, ParseError>, AllocError>
        requires { IsTrue (model.can kind Characteristic.FromStr) }
        ensures { IfOk result (λ parsed. parsed ≡ ok_or (model.parsed kind text.now) (record { kind = kind })) };

    /// The leaf of a kind that bytes are, where they are one.
    fn parse_bytes(
        alloc: Global,
        kind: ScalarType,
        bytes: &[u8],
    ) -> Result<Result<Self, ParseError>, AllocError>
        requires { IsTrue (model.hook kind LeafHook.ParseBytes) }
        ensures { IfOk result (λ parsed. parsed ≡ ok_or (model.parsed_bytes kind bytes.now) (record { kind = kind })) };

    /// The default of a kind.
    fn default_of(alloc: Global, kind: ScalarType) -> Result<Self, AllocError>
        requires { IsTrue (model.can kind Characteristic.Default) }
        ensures { IfOk result (λ leaf. model.default_of kind ≡ Some leaf) };

    /// A leaf equal to this one.
    fn clone_leaf(&self, alloc: Global) -> Result<Self, AllocError>
        requires { IsTrue (model.can (model.kind self.now) Characteristic.Clone) }
        ensures { IfOk result (λ leaf. leaf ≡ model.cloned self.now) };

    /// Whether the leaf counts as true.
    fn truthy(&self) -> bool
        requires { IsTrue (model.hook (model.kind self.now) LeafHook.Truthy) }
        ensures { result ≡ model.truthy self.now };

    /// Whether the leaf meets the invariants of its type.
    fn invariants(&self) -> bool
        requires { IsTrue (model.hook (model.kind self.now) LeafHook.Invariants) }
        ensures { result ≡ model.holds self.now };

    /// What a leaf becomes in a kind. Out of memory, it returns the leaf in the error.
    fn convert(
        alloc: Global,
        kind: ScalarType,
        from: Self,
    ) -> Result<Conversion<Self>, NoRoom<Self>>
        requires { IsTrue (model.hook kind LeafHook.TryFrom) }
        ensures { MatchResult result (λ conversion. conversion ≡ model.converted kind from) (λ no_room. no_room.from ≡ from) };

    /// What holds of those results.
    ghost laws: { LeafLaws model };
}
