// Loops over a line are compiled for each type of elements.
use word::ElementType;

// Calls a function on a type of elements, with the type written out at each call: inlined there, the
// function is compiled for that type. (A closure would be one function for all types.)
macro_rules! by_kind {
    ($kind:expr, $f:ident $(::<$o:ident>)?; $($arg:expr),*) => {
        match $kind {
            ElementType::U8 => $f $(::<$o>)?(ElementType::U8, $($arg),*),
            ElementType::S8 => $f $(::<$o>)?(ElementType::S8, $($arg),*),
            ElementType::U16 => $f $(::<$o>)?(ElementType::U16, $($arg),*),
            ElementType::S16 => $f $(::<$o>)?(ElementType::S16, $($arg),*),
            ElementType::U32 => $f $(::<$o>)?(ElementType::U32, $($arg),*),
            ElementType::S32 => $f $(::<$o>)?(ElementType::S32, $($arg),*),
            ElementType::U64 => $f $(::<$o>)?(ElementType::U64, $($arg),*),
            ElementType::S64 => $f $(::<$o>)?(ElementType::S64, $($arg),*),
        }
    };
}

pub(crate) use by_kind;
