//! The arms that the rows of the table of fragments make. They add a fragment's Script to an output `$out`,
//! which has methods `push`, `code` and `verify`: a Script, or what a Script comes to. A module that calls
//! them has for its output the functions `add_tree`, `add_hash` and `push_number`, and the macros `key_push`
//! and `step`, which takes a call of any of these, and hands on its refusal where it can refuse.

/// Adds opcodes, and pushes of numbers. VERIFY is fused with the opcode before it where that has a
/// VERIFY form.
#[macro_export]
macro_rules! opcodes {
    ($out:ident, ($($op:tt)*)) => {
        $(opcodes!($out, $op);)*
    };
    ($out:ident, Verify) => {
        step!($out.verify());
    };
    ($out:ident, $number:literal) => {
        step!(push_number($out, $number));
    };
    ($out:ident, $op:ident) => {
        step!($out.code(Op::$op));
    };
}

#[macro_export]
macro_rules! leaf_arms {
    (
        ($out:ident, $leaf:ident)
        numbers { $([$number:ident $digit:literal 0 $pushed:tt])* }
        keys { $([$key:ident $key_name:literal 1 $before_key:tt $push:ident $behind_key:tt])* }
        locks { $([$lock:ident $lock_name:literal 1 $needs:tt $before_lock:tt $behind_lock:tt])* }
        $($others:tt)*
    ) => {
        match $leaf {
            $(Leaf::$number => {
                opcodes!($out, $pushed);
            })*
            $(Leaf::$key(key) => {
                opcodes!($out, $before_key);
                key_push!($out, $push, key);
                opcodes!($out, $behind_key);
            })*
            $(Leaf::$lock(n) => {
                opcodes!($out, $before_lock);
                step!(push_number($out, n));
                opcodes!($out, $behind_lock);
            })*
            Leaf::Hash(value) => step!(add_hash($out, &value)),
        }
    };
}

#[macro_export]
macro_rules! hash_arms {
    (
        ($out:ident, $value:ident)
        numbers $numbers:tt keys $keys:tt locks $locks:tt
        hashes { $([$variant:ident $name:literal 1 $before:tt $behind:tt])* }
        $($others:tt)*
    ) => {
        match $value {
            $(HashValue::$variant(bytes) => {
                opcodes!($out, $before);
                step!($out.push(bytes));
                opcodes!($out, $behind);
            })*
        }
    };
}

#[macro_export]
macro_rules! and_or_arm {
    (
        ($out:ident, $x:ident, $y:ident, $z:ident)
        numbers $numbers:tt keys $keys:tt locks $locks:tt hashes $hashes:tt
        and_or { [$variant:ident $name:literal 3 $needs:tt $properties:tt $before:tt $behind_x:tt $behind_z:tt $behind_y:tt] }
        $($others:tt)*
    ) => {
        opcodes!($out, $before);
        step!(add_tree($out, $x));
        opcodes!($out, $behind_x);
        step!(add_tree($out, $z));
        opcodes!($out, $behind_z);
        step!(add_tree($out, $y));
        opcodes!($out, $behind_y);
    };
}

#[macro_export]
macro_rules! pair_arms {
    (
        ($out:ident, $kind:ident, $x:ident, $z:ident)
        numbers $numbers:tt keys $keys:tt locks $locks:tt hashes $hashes:tt and_or $and_or:tt
        pairs { $([$variant:ident $name:literal 2 $needs:tt $properties:tt $before:tt $between:tt $behind:tt])* }
        $($others:tt)*
    ) => {
        match $kind {
            $(Two::$variant => {
                opcodes!($out, $before);
                step!(add_tree($out, $x));
                opcodes!($out, $between);
                step!(add_tree($out, $z));
                opcodes!($out, $behind);
            })*
        }
    };
}

/// The opcodes of a threshold behind each further child and at its end, and those at the end of a `multi`.
#[macro_export]
macro_rules! list_opcodes {
    (
        ($out:ident, further child)
        numbers $numbers:tt keys $keys:tt locks $locks:tt hashes $hashes:tt and_or $and_or:tt pairs $pairs:tt
        lists { [Thresh $name:literal $needs:tt $properties:tt $further:tt $behind:tt] $multi:tt }
        $($others:tt)*
    ) => {
        opcodes!($out, $further);
    };
    (
        ($out:ident, thresh)
        numbers $numbers:tt keys $keys:tt locks $locks:tt hashes $hashes:tt and_or $and_or:tt pairs $pairs:tt
        lists { [Thresh $name:literal $needs:tt $properties:tt $further:tt $behind:tt] $multi:tt }
        $($others:tt)*
    ) => {
        opcodes!($out, $behind);
    };
    (
        ($out:ident, multi)
        numbers $numbers:tt keys $keys:tt locks $locks:tt hashes $hashes:tt and_or $and_or:tt pairs $pairs:tt
        lists { $thresh:tt [Multi $name:literal $needs:tt $properties:tt $behind:tt] }
        $($others:tt)*
    ) => {
        opcodes!($out, $behind);
    };
}

#[macro_export]
macro_rules! wrapper_arms {
    (
        ($out:ident, $wrapper:ident, $x:ident)
        numbers $numbers:tt keys $keys:tt locks $locks:tt hashes $hashes:tt and_or $and_or:tt pairs $pairs:tt lists $lists:tt
        wrappers { $([$variant:ident $letter:literal 1 $needs:tt $before:tt $behind:tt])* }
    ) => {
        match $wrapper {
            $(Wrapper::$variant => {
                opcodes!($out, $before);
                step!(add_tree($out, $x));
                opcodes!($out, $behind);
            })*
        }
    };
}

pub(crate) use and_or_arm;
pub(crate) use hash_arms;
pub(crate) use leaf_arms;
pub(crate) use list_opcodes;
pub(crate) use opcodes;
pub(crate) use pair_arms;
pub(crate) use wrapper_arms;
