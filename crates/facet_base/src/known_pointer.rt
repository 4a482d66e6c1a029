/// The types that act as pointers and are known by name.
#[derive(Clone, Copy, PartialEq, Eq, Hash, Debug)]
pub enum KnownPointer {
    Box,
    Rc,
    RcWeak,
    Arc,
    ArcWeak,
    Cow,
    Pin,
    Cell,
    RefCell,
    OnceCell,
    Mutex,
    RwLock,
    OnceLock,
    LazyLock,
    NonNull,
    SharedReference,
    ExclusiveReference,
}
