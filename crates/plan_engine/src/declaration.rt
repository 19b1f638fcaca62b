//! What an entry of a plan declares.
ghost use Rattle.std.specs.Prelude.{◌↔◌, Contains, IsTrue};
ghost use Rattle.shred_model.specs.Access.{Conflicts, Declares};

/// What an entry of a plan declares: the resources that it reads and those that it writes, by their places in a list, and the
/// entries that it names as its dependencies, by their places in order of addition.
#[derive(Drop)]
pub struct Declaration {
    pub reads: Vec<usize>,
    pub writes: Vec<usize>,
    pub dependencies: Vec<usize>,
}

impl Declaration {
    ghost use Rattle.plan_engine.specs.Entries.{access_of, WritesOf};

    /// Whether the entry reads or writes the resource at this place.
    pub fn declares(&self, place: usize) -> bool
        ensures { IsTrue result ↔ Declares (access_of self.now) place }
    {
        has(&self.reads, place) || has(&self.writes, place)
    }

    /// Whether one of the two writes a resource that the other reads or writes.
    pub fn conflicts_with(&self, other: &Declaration) -> bool
        ensures { IsTrue result ↔ Conflicts (access_of self.now) (access_of other.now) }
    {
        self.writes_of(other) || other.writes_of(self)
    }

    /// Whether the entry writes a resource that the other declares.
    fn writes_of(&self, other: &Declaration) -> bool
        ensures { IsTrue result ↔ WritesOf (access_of self.now) (access_of other.now) }
    {
        for place in &self.writes {
            if other.declares(*place) {
                return true;
            }
        }
        false
    }
}

/// Whether the place is one of these.
fn has(places: &[usize], place: usize) -> bool
    ensures { IsTrue result ↔ Contains places.now place }
{
    places.contains(&place)
}
