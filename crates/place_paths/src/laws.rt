// Laws of paths. The functions do nothing: their clauses are the laws.
ghost use Rattle.place_paths.specs.Paths.{PathsAreDistinct, PathsAreRead};

/// The path of a place is one that a port table may have, if the place's numbers are below 2^64.
pub fn paths_are_read()
    ensures { PathsAreRead }
{}

/// Different places have different paths, if their numbers are below 2^64.
pub fn paths_are_distinct()
    ensures { PathsAreDistinct }
{}
