//! What a user of leaves concludes by their laws alone. Each function is refused without the laws that its
//! first line names, save `order_reversed` and `order_equal`: these follow from the laws of the partial order.

ghost use Rattle.std.specs.Prelude.{◌≡◌, IsTrue, IfOk, IfErr, IfSome, IsSome, true, false, Some};
ghost use Rattle.facet_leaf.specs.hashing.HashWrite.{fed_all};

use crate::conversion::Conversion;
use crate::hashing::hash_sink::HashSink;
use crate::hook::LeafHook;
use crate::leaf::Leaf;
use facet_base::{Characteristic, ScalarType};
use std::alloc::{AllocError, Global};
use std::cmp::Ordering;

// stored
fn is_of_no_stored_kind<L: Leaf>(leaf: &L) -> bool
    ensures { result ≡ false }
{
    matches!(leaf.kind(), ScalarType::Unit | ScalarType::Str)
}

// can_debug
fn is_shown<L: Leaf>(kind: ScalarType) -> bool
    ensures { result ≡ true }
{
    L::can(kind, Characteristic::Debug)
}

// ord_can_partial_ord, partial_total
fn order_by_partial_order<L: Leaf>(a: &L, b: &L) -> Ordering
    requires can { IsTrue (L.model.can (L.model.kind a.now) Characteristic.Ord) }
    requires one_kind { L.model.kind a.now ≡ L.model.kind b.now }
    ensures { result ≡ L.model.order a.now b.now }
{
    match a.partial_order(b) {
        Some(order) => order,
        None => unreachable!(),
    }
}

// partial_ord_can_partial_eq, partial_equal
fn same_by_partial_order<L: Leaf>(a: &L, b: &L) -> bool
    requires can { IsTrue (L.model.can (L.model.kind a.now) Characteristic.PartialOrd) }
    requires one_kind { L.model.kind a.now ≡ L.model.kind b.now }
    ensures { result ≡ true }
{
    let is_equal = matches!(a.partial_order(b), Some(Ordering::Equal));
    is_equal == a.same(b)
}

// same_reflexive
fn is_same_as_itself<L: Leaf>(a: &L) -> bool
    requires { IsTrue (L.model.can (L.model.kind a.now) Characteristic.PartialEq) }
    ensures { result ≡ true }
{
    a.same(a)
}

// same_symmetric
fn same_turned<L: Leaf>(a: &L, b: &L) -> bool
    requires can { IsTrue (L.model.can (L.model.kind a.now) Characteristic.PartialEq) }
    requires one_kind { L.model.kind a.now ≡ L.model.kind b.now }
    ensures { result ≡ L.model.same a.now b.now }
{
    b.same(a)
}

// same_transitive
fn same_over_a_third<L: Leaf>(a: &L, b: &L, c: &L) -> bool
    requires can { IsTrue (L.model.can (L.model.kind a.now) Characteristic.PartialEq) }
    requires one_kind { L.model.kind a.now ≡ L.model.kind b.now }
    requires third { L.model.kind b.now ≡ L.model.kind c.now }
    ensures { result ≡ true }
{
    if a.same(b) && b.same(c) {
        a.same(c)
    } else {
        true
    }
}

// order_reversed
fn order_turned<L: Leaf>(a: &L, b: &L) -> Ordering
    requires can { IsTrue (L.model.can (L.model.kind a.now) Characteristic.Ord) }
    requires one_kind { L.model.kind a.now ≡ L.model.kind b.now }
    ensures { result ≡ L.model.order a.now b.now }
{
    b.order(a).reverse()
}

// order_transitive
fn order_over_a_third<L: Leaf>(a: &L, b: &L, c: &L) -> Ordering
    requires can { IsTrue (L.model.can (L.model.kind a.now) Characteristic.Ord) }
    requires one_kind { L.model.kind a.now ≡ L.model.kind b.now }
    requires third { L.model.kind b.now ≡ L.model.kind c.now }
    ensures { result ≡ Ordering.Less }
{
    match (a.order(b), b.order(c)) {
        (Ordering::Less, Ordering::Less) => a.order(c),
        _ => Ordering::Less,
    }
}

// order_equal
fn same_by_order<L: Leaf>(a: &L, b: &L) -> bool
    requires can { IsTrue (L.model.can (L.model.kind a.now) Characteristic.Ord) }
    requires one_kind { L.model.kind a.now ≡ L.model.kind b.now }
    ensures { result ≡ L.model.same a.now b.now }
{
    matches!(a.order(b), Ordering::Equal)
}

// partial_reversed
fn partial_order_turned<L: Leaf>(a: &L, b: &L) -> Option<Ordering>
    requires can { IsTrue (L.model.can (L.model.kind a.now) Characteristic.PartialOrd) }
    requires one_kind { L.model.kind a.now ≡ L.model.kind b.now }
    ensures { result ≡ L.model.partial_order a.now b.now }
{
    match b.partial_order(a) {
        Some(order) => Some(order.reverse()),
        None => None,
    }
}

// writes_same
fn hash_either<L: Leaf, H: HashSink>(a: &L, b: &L, sink: &mut H)
    requires can { IsTrue (L.model.can (L.model.kind a.now) Characteristic.PartialEq) }
    requires hash { IsTrue (L.model.can (L.model.kind a.now) Characteristic.Hash) }
    requires one_kind { L.model.kind a.now ≡ L.model.kind b.now }
    ensures { sink.new ≡ fed_all H.fed sink.old (L.model.writes a.now) }
{
    if a.same(b) {
        b.hash_into(sink);
    } else {
        a.hash_into(sink);
    }
}

// cloned_kind, cloned_same
fn is_same_as_its_clone<L: Leaf>(alloc: Global, a: &L) -> Result<bool, AllocError>
    requires can { IsTrue (L.model.can (L.model.kind a.now) Characteristic.PartialEq) }
    requires clone { IsTrue (L.model.can (L.model.kind a.now) Characteristic.Clone) }
    ensures { IfOk result (λ is_same. is_same ≡ true) }
{
    let copy = a.clone_leaf(alloc)?;
    Ok(a.same(&copy))
}

// parsed_kind
fn kind_of_parsed<L: Leaf>(
    alloc: Global,
    kind: ScalarType,
    text: &str,
) -> Result<Option<ScalarType>, AllocError>
    requires { IsTrue (L.model.can kind Characteristic.FromStr) }
    ensures { IfOk result (λ found. IfSome found (λ k. k ≡ kind)) }
{
    match L::parse(alloc, kind, text)? {
        Ok(leaf) => Ok(Some(leaf.kind())),
        Err(_) => Ok(None),
    }
}

// parsed_bytes_kind
fn kind_of_parsed_bytes<L: Leaf>(
    alloc: Global,
    kind: ScalarType,
    bytes: &[u8],
) -> Result<Option<ScalarType>, AllocError>
    requires { IsTrue (L.model.hook kind LeafHook.ParseBytes) }
    ensures { IfOk result (λ found. IfSome found (λ k. k ≡ kind)) }
{
    match L::parse_bytes(alloc, kind, bytes)? {
        Ok(leaf) => Ok(Some(leaf.kind())),
        Err(_) => Ok(None),
    }
}

// default_kind
fn kind_of_default<L: Leaf>(alloc: Global, kind: ScalarType) -> Result<ScalarType, AllocError>
    requires { IsTrue (L.model.can kind Characteristic.Default) }
    ensures { IfOk result (λ k. k ≡ kind) }
{
    let leaf = L::default_of(alloc, kind)?;
    Ok(leaf.kind())
}

// default_there
fn has_default<L: Leaf>(kind: ScalarType) -> bool
    ensures { result ≡ true → IsSome (L.model.default_of kind) }
{
    L::can(kind, Characteristic::Default)
}

// conversion
fn kind_or_source<L: Leaf>(alloc: Global, kind: ScalarType, from: L) -> Result<ScalarType, L>
    requires { IsTrue (L.model.hook kind LeafHook.TryFrom) }
    ensures kind { IfOk result (λ k. k ≡ kind) }
    ensures source { IfErr result (λ leaf. leaf ≡ from) }
{
    match L::convert(alloc, kind, from) {
        Ok(Conversion::Converted(leaf)) => Ok(leaf.kind()),
        Ok(Conversion::Unsupported(leaf)) | Ok(Conversion::Failed(leaf)) => Err(leaf),
        Err(no_room) => Err(no_room.from),
    }
}
