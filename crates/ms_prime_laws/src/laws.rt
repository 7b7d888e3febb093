//! What the definitions imply.

ghost use Rattle.ms_prime_laws.specs.Laws.{FieldPrimeIsPrime, OrderIsPrime, InverseIsInverse};

/// The numbers p and n of secp256k1 are primes, and what the definitions call an inverse modulo either is one.
pub fn primes()
    ensures prime { FieldPrimeIsPrime }
    ensures order { OrderIsPrime }
    ensures inverse { InverseIsInverse }
{}
