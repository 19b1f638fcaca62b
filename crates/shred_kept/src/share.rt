//! How many of the last groups make up a lane.
ghost use Rattle.std.specs.Prelude.{◌≤◌, vec_len};

use shred_run::entry::Group;

// The sum of the declared times of a group's entries.
fn time_of<V, X>(group: &Group<V, X>) -> usize {
    let mut sum: usize = 0;
    for entry in &group.entries {
        sum = sum.saturating_add(entry.time.count());
    }
    sum
}

fn time_of_all<V, X>(groups: &Vec<Group<V, X>>) -> usize {
    let mut sum: usize = 0;
    for group in groups {
        sum = sum.saturating_add(time_of(group));
    }
    sum
}

/// How many of the last groups make up a lane, where so many lanes are to be made of all: as many as take no more than that part of the
/// declared time of all, and at least one.
pub(crate) fn share_of<V, X>(groups: &Vec<Group<V, X>>, lanes: usize) -> usize
    requires { 1 ≤ vec_len groups.now }
    ensures { result ≤ vec_len groups.now }
{
    let part = time_of_all(groups) / lanes.max(1);
    let count = groups.len();
    let mut time: usize = 0;
    for share in 0..count {
        time = time.saturating_add(time_of(&groups[count - 1 - share]));
        if time > part {
            return share.max(1);
        }
    }
    count
}
