ghost use Rattle.std.specs.Prelude.{◌≡◌, Bool, true, List};
ghost use mathlib.Core.List.{Perm};
ghost use Rattle.records.specs.Linear.{Linear};
ghost use Rattle.records.specs.Sorting.{sort, Ascending};

// A kind of record. `order x y` says that x stands no later than y, and `last` is the blank: the
// mark of a cell that holds no record, which no value stands after.
pub trait Record: Copy {
    ghost order: { Self → Self → Bool };

    ghost last: { Self };

    // Whether this record stands no later than the other. A test of the trait's own, and no bound on `Ord`, so that
    // contracts name the order as one function of two records.
    fn no_later(&self, other: &Self) -> bool
        ensures { result ≡ order self.now other.now };

    // The kind's blank mark.
    fn blank() -> Self
        ensures { result ≡ last };

    ghost linear: { Linear order };

    ghost ends: { (x : Self) → order x last ≡ true };
}

// Whether a value is its kind's blank: only the blank stands no earlier than the blank.
pub fn is_blank<R: Record>(x: &R) -> bool
    ensures { result ≡ R.Record.order R.Record.last x.now }
{
    R::blank().no_later(x)
}

// The order of any kind decides how records stand in line: whatever the sequence in which they came,
// they sort to one ascending list.
pub fn sorts_alike<R: Record>() -> bool
    ensures alike { (xs ys : List R) → Perm xs ys → sort R.Record.order xs ≡ sort R.Record.order ys }
    ensures ascends { (xs : List R) → Ascending R.Record.order (sort R.Record.order xs) }
    ensures answer { result ≡ true }
{
    true
}
