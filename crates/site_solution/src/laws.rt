// What the tests of sites say after a change of the tree. Whoever calls one of these functions has
// its law.
ghost use Rattle.site_solution.specs.Staying.{SameNumbersKeep, BirthsKeepOthers};

/// Trees in which each location has the same number say the same of each site. It does nothing.
pub fn same_numbers_keep()
    ensures { SameNumbersKeep }
{}

/// Locations that a site has born change nothing for a site with another number. It does nothing.
pub fn births_keep_others()
    ensures { BirthsKeepOthers }
{}
