//! The places of pools by their names.

ghost use Rattle.std.specs.Prelude.{◌≡◌, ◌==◌, None, Some, if◌then◌else◌};

use indexmap::IndexMap;
use model::Pool;
use std::alloc::{AllocError, Global};

/// For names of pools their places, where these have limits.
#[derive(Drop)]
pub struct Places {
    pub by_name: IndexMap<String, Option<usize>>,
}

impl Places {
    ghost use Rattle.std.specs.Prelude.{◌≡◌, ℕ, List, if◌then◌else◌, bytes_eq, IfOk, OnOk};
    ghost use Rattle.plan.specs.Places.{place_by, ArePlaces, IsPlaced};

    /// The places of these pools; of those with one name that of the first.
    pub fn of(alloc: Global, pools: &[Pool]) -> Result<Places, AllocError>
        ensures { IfOk result (ArePlaces pools.now) }
    {
        let mut places = Places {
            by_name: IndexMap::new(alloc),
        };
        let mut rest = pools;
        while let Some((pool, front)) = rest.split_last() {
            places.put(alloc, pool.name.as_str(), limit(pool, front.len()))?;
            rest = front;
        }
        Ok(places)
    }

    /// Gives the name this place.
    fn put(&mut self, alloc: Global, name: &str, place: Option<usize>) -> Result<(), AllocError>
        ensures { OnOk result (IsPlaced name.now place self.old self.new) }
    {
        let name = String::from_str(alloc, name)?;
        self.by_name.insert(name, place)?;
        Ok(())
    }

    /// The place of the pool with this name, where it has a limit.
    pub fn get(&self, name: &str) -> Option<usize>
        ensures { result ≡ place_by self.now name.now }
    {
        self.by_name.get(name).copied().flatten()
    }
}

/// The place of the pool, where it has a limit.
fn limit(pool: &Pool, place: usize) -> Option<usize>
    ensures { result ≡ (if pool.now.depth == 0 then None else Some place) }
{
    if pool.depth == 0 { None } else { Some(place) }
}
