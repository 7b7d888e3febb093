//! Which row of the satisfaction table (BIP 379, satisfaction) a stack takes: at fragments without children and at
//! thresholds, by what was found on it.
ghost use Rattle.std.specs.Prelude.{◌≡◌, false};
ghost use Rattle.ms_audit_laws.specs.Walk.{forced as the_forced, sig_verdict, key_verdict, hash_verdict, multi_verdict, count_verdict};
ghost use Rattle.ms_audit.specs.Scaffolding.Walking.{verdict_of};

/// A row that a stack takes.
#[derive(Clone, Copy)]
pub struct Row {
    /// Whether it satisfies the node.
    pub sat: bool,
    /// Whether it isn't canonical.
    pub extra: bool,
}

impl Row {
    /// A canonical row.
    pub fn canonical(sat: bool) -> Row
        ensures { result ≡ record { sat = sat; extra = false } }
    {
        Row { sat, extra: false }
    }
}

/// Of what has no dissatisfaction.
pub fn forced(sat: bool) -> Option<Row>
    ensures { verdict_of result ≡ the_forced sat }
{
    if sat {
        Some(Row::canonical(true))
    } else {
        None
    }
}

/// Of `pk_k`: a signature that is good, or empty.
pub fn of_sig(good: bool, empty: bool) -> Option<Row>
    ensures { verdict_of result ≡ sig_verdict good empty }
{
    if good || empty {
        Some(Row::canonical(good))
    } else {
        None
    }
}

/// Of `pk_h`: a signature that is good or empty, with a key that has the hash and may be the fragment's own.
pub fn of_key(fits: bool, own: bool, good: bool, empty: bool) -> Option<Row>
    ensures { verdict_of result ≡ key_verdict fits own good empty }
{
    if fits && (good || empty) {
        Some(Row {
            sat: good,
            extra: !own,
        })
    } else {
        None
    }
}

/// Of a hash: 32 bytes that have it or don't, and may all be zero.
pub fn of_hash(long: bool, met: bool, zeros: bool) -> Option<Row>
    ensures { verdict_of result ≡ hash_verdict long met zeros }
{
    if long {
        Some(Row {
            sat: met,
            extra: !met && !zeros,
        })
    } else {
        None
    }
}

/// Of `multi`: an empty item below signatures that are all good, or all empty.
pub fn of_multi(dummy: bool, found: bool, empty: bool) -> Option<Row>
    ensures { verdict_of result ≡ multi_verdict dummy found empty }
{
    if dummy && (found || empty) {
        Some(Row::canonical(found))
    } else {
        None
    }
}

/// Of `thresh`: as many children satisfied as there must be, or none.
pub fn of_count(met: bool, no_child: bool) -> Option<Row>
    ensures { verdict_of result ≡ count_verdict met no_child }
{
    Some(Row {
        sat: met,
        extra: !met && !no_child,
    })
}
