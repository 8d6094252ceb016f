// The register through which equal objects are found: a set of pairs of a hash and an object's number, of
// at most so many. Its owner chooses an implementation; code above it knows it by its meaning alone.
#![tactic(auto)]

ghost use Rattle.std.specs.Prelude.{◌≡◌, ◌<◌};
ghost use Rattle.link.specs.declared.ObjIdx.{ObjIdx};
ghost use Rattle.register.specs.Match.{LeastMatch, LeastWhere};
ghost use Rattle.register.specs.Pairs.{Pairs, fits, entered, struck, Next, Counted};

use link::ObjIdx;

pub trait Register {
    // What it means: which pairs it holds, how many, and how many it may hold.
    ghost holds: { Self → Pairs };

    // Adds a pair, and answers yes, also where it is held already. At capacity it answers no to a new pair,
    // and nothing changes.
    fn enter(&mut self, hash: u64, number: ObjIdx) -> bool
        ensures answer { result ≡ fits (holds self.old) hash number.0 }
        ensures register { holds self.new ≡ entered (holds self.old) hash number.0 };

    // Removes a pair if it is held, and no other.
    fn strike(&mut self, hash: u64, number: ObjIdx)
        ensures register { holds self.new ≡ struck (holds self.old) hash number.0 };

    // The least number held under the hash that is not below `from`, or none.
    fn next(&self, hash: u64, from: ObjIdx) -> Option<ObjIdx>
        ensures answer { Next (holds self.now) hash from.0 result };

    // How many pairs it may hold.
    fn capacity(&self) -> usize
        ensures answer { result ≡ (holds self.now).capacity };

    // The count is that of the pairs held, and within the capacity.
    ghost counted: { (s : Self) → Counted (holds s) };
}

// The least number below `end` that is held under the hash and passes the test, or none. The numbers held are tried
// in order, up to the first that passes or is not below `end`, and the test is called at no other.
pub fn least_where<R: Register, F: Fn(ObjIdx) -> bool>(
    register: &R,
    hash: u64,
    end: ObjIdx,
    test: F,
) -> Option<ObjIdx>
    requires { (m : ObjIdx) → m.0 < end.0 → F.pre test m }
    ensures answer { LeastWhere (R.Register.holds register.now) hash end.0 (F.post test) result }
{
    // The search ends because the numbers found grow, which an iterator of successors would not say: so it is a loop.
    let mut from = ObjIdx(0);
    while let Some(number) = register.next(hash, from) {
        if number >= end {
            return None;
        }
        if test(number) {
            return Some(number);
        }
        from = ObjIdx(number.0 + 1);
    }
    None
}

// The least number held under the hash whose entry in the table is the key, or none. A held number past the
// table's end has no entry, and those after it have none either.
pub fn least_match<R: Register>(register: &R, hash: u64, table: &[u32], key: u32) -> Option<ObjIdx>
    ensures answer { LeastMatch (R.Register.holds register.now) hash table.now key result }
{
    least_where(
        register,
        hash,
        ObjIdx(table.len()),
        |number| table[number.0] == key,
    )
}
