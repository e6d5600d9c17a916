// Laws of every item.
ghost use Rattle.std.specs.Prelude.{ℕ, ◌≡◌, Bool, Option, Some};
ghost use Rattle.journal_xdr.specs.Items.{Item, IsGrammar, HasOneSpelling, pair, mapped_item, coded, such_that, tagged, variant};
ghost use Rattle.journal_xdr.specs.Lists.{array, list};
ghost use Rattle.journal_xdr.specs.Basic.{word, hyper, boolean, fixed, opaque, string, optional};

/// A type whose values an item spells. It is for laws alone, which hold of any such type.
pub trait HasItem {
    // The item.
    ghost item: { Item Self };
}

/// A union (RFC 4506, section 4.15): a type whose values have a tag, which says how the rest is
/// spelled.
pub trait HasArms<Tag: HasItem> {
    // How the rest of values with this tag is spelled, after the tag.
    ghost arm: { Tag → Item Self };

    // The tag of a value.
    ghost tag_of: { Self → Tag };
}

/// A value is read exactly where its spelling is at the front, and the bytes after it stay.
pub fn readings_are_spellings()
    ensures word { IsGrammar word }
    ensures hyper { IsGrammar hyper }
    ensures boolean { IsGrammar boolean }
    ensures fixed { (length : ℕ) → IsGrammar (fixed length) }
    ensures opaque { (limit : ℕ) → IsGrammar (opaque limit) }
    ensures string { (limit : ℕ) → IsGrammar (string limit) }
{}

/// So it is of items that are put together from such items.
pub fn combinations_are_spellings<A: HasItem, B: HasItem + HasArms<A>>()
    ensures pair { IsGrammar A.item → IsGrammar B.item → IsGrammar (pair A.item B.item) }
    ensures optional { IsGrammar A.item → IsGrammar (optional A.item) }
    ensures such_that { (test : A → Bool) → IsGrammar A.item → IsGrammar (such_that test A.item) }

    // A type made of another: each value is made of one value of the other, or some are.
    ensures made { (make : A → B) (parts : B → A) → IsGrammar A.item
        → ((x : A) → parts (make x) ≡ x) → ((v : B) → make (parts v) ≡ v)
        → IsGrammar (mapped_item A.item make parts) }
    ensures coded { (meaning : A → Option B) (code : B → A) → IsGrammar A.item
        → ((x : A) (v : B) → A.item.Has x → meaning x ≡ Some v → code v ≡ x)
        → IsGrammar (coded A.item meaning code) }
    ensures variant { (make : A → B) (part : B → Option A) → IsGrammar A.item
        → ((x : A) → part (make x) ≡ Some x) → ((v : B) (x : A) → part v ≡ Some x → make x ≡ v)
        → IsGrammar (variant A.item make part) }

    // A union by its tag.
    ensures tagged { IsGrammar A.item → ((x : A) → IsGrammar (B.arm x))
        → ((x : A) (v : B) → (B.arm x).Has v → B.tag_of v ≡ x)
        → IsGrammar (tagged A.item B.arm B.tag_of) }
{}

/// So it is of lists of values that such an item spells.
pub fn lists_are_spellings<A: HasItem>()
    ensures array { (limit : ℕ) → IsGrammar A.item → IsGrammar (array limit A.item) }
    ensures list { IsGrammar A.item → IsGrammar (list A.item) }
{}

/// And each value has one spelling then, and no spelling of a value begins another.
pub fn spellings_are_single<A: HasItem>()
    ensures { IsGrammar A.item → HasOneSpelling A.item }
{}
