// The laws of listing, each as the contract of a function that does nothing.
ghost use Rattle.alma_ir.specs.Tree.{Program};
ghost use Rattle.alma_listing.specs.Alike.{MeanTheSame};
ghost use Rattle.alma_listing.specs.Worked.{ListingsRun};
ghost use Rattle.alma_listing.specs.Lister.{listing_of};
ghost use Rattle.alma_listing.specs.Listing.{EachIsListed, ListerIsChecked, EachReadsAlike, ListersGiveListings};

/// Statements that call shared procedures alone mean the same in two programs.
#[tactic(auto, using(crate::proofs::Alike::mean_the_same))]
pub fn statements_mean_the_same()
    ensures { (p : Program) (q : Program) → MeanTheSame p q }
{}

/// What small programs list.
#[tactic(auto, using(crate::proofs::Worked::listings_run))]
pub fn listings_run()
    ensures { ListingsRun }
{}

/// The program that lists lists every checked program with no RETURN in the body of the module.
pub fn each_is_listed()
    ensures { EachIsListed listing_of }
{}

/// The program that lists a checked program is a checked one.
pub fn lister_is_checked()
    ensures { ListerIsChecked listing_of }
{}

/// The program that lists holds a READ exactly where the listed one does.
#[tactic(auto, using(crate::proofs::ReadsAlike::each_reads_alike))]
pub fn each_reads_alike()
    ensures { EachReadsAlike listing_of }
{}

/// A result of a program that lists another, where it is not cut off, is the listing.
#[tactic(auto, using(crate::proofs::Results::listers_give_listings))]
pub fn listers_give_listings()
    ensures { ListersGiveListings }
{}
