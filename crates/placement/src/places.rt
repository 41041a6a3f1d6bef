//! The environments of an account by function and class.
//!
//! Beside the list of environments, each function has three sets of them, one for each class that
//! takes an invocation. So to set a class writes one element and three words, and a choice reads
//! twelve words, whatever the number of environments. Neither takes memory.

ghost use Rattle.std.specs.Prelude.{◌≡◌, ◌-◌, ◌≤◌, length, slice_set, IfOk};
ghost use Rattle.placement.specs.Places.{place_among, place_at, opened};

use crate::Class;
use crate::free::Free;
use arn_ids::{Checked, EnvNo, FnNo};
use std::alloc::{AllocError, Global};
use std::marker::Model;

/// An environment: its function, and its class.
#[derive(Clone, Copy)]
pub struct Place {
    /// The number of its function, from 1.
    pub function: FnNo,
    /// What its phase means for the next invocation.
    pub class: Class,
}

/// The environments of an account, seen as the list of them in the order of their numbers.
#[derive(Drop)]
pub struct Places {
    places: Vec<Place>,
    // By the number of a function, its environments that take an invocation; none has number 0.
    free: Vec<Free>,
}

impl Model for Places {
    ghost use Rattle.std.specs.Prelude.{List};
    ghost use Rattle.placement.specs.Sets.{Follows};
    ghost use Rattle.placement.specs.declared.places.Place.{Place};

    ghost Value = { List Place };

    ghost view = { λ places. places.places.items };

    ghost invariant = { λ places. Follows places.free.items places.places.items };
}

impl Places {
    /// Returns the environments of a configuration, each of them starting with nothing bound.
    ///
    /// # Errors
    /// Only if memory is refused.
    pub fn open(alloc: Global, config: &Checked) -> Result<Places, AllocError>
        ensures { IfOk result (λ places. places ≡ opened config.now) }
    {
        let mut places = Vec::with_capacity(alloc, config.environments() as usize)?;
        let mut free = vec![in alloc; Free::none(); config.functions().len() + 1]?;
        for index in 0..config.environments() {
            let function = config.function_of(index + 1);
            places.push(Place {
                function,
                class: Class::StartingFree,
            })?;
            free[function as usize].note(index + 1, Class::StartingFree);
        }
        Ok(Places { places, free })
    }

    /// Returns the number of environments.
    pub fn environments(&self) -> u32
        ensures { result ≡ length self.now }
    {
        self.places.len() as u32
    }

    /// Sets an environment's class, in constant time.
    pub fn note(&mut self, env: EnvNo, class: Class)
        requires from_one { 1 ≤ env }
        requires there { env ≤ length self.old }
        ensures { self.new ≡ slice_set self.old (env - 1) (record (place_at self.old env) { class = class }) }
    {
        let place = &mut self.places[env as usize - 1];
        place.class = class;
        let function = place.function;
        self.free[function as usize].note(env, class);
    }

    /// Returns the environment that takes the function's next invocation, in constant time: the lowest
    /// numbered one that is idle, else one that starts, else one that closes, with nothing bound.
    /// Returns `None` if all are taken.
    pub fn choose(&self, function: FnNo) -> Option<EnvNo>
        ensures { result ≡ place_among self.now function }
    {
        let free = self.free.get(function as usize)?;
        free.idle
            .lowest()
            .or(free.starting.lowest())
            .or(free.closing.lowest())
    }
}
