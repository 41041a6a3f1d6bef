//! The bells that a step hands out.

ghost use Rattle.std.specs.Prelude.{◌≡◌, ◌==◌, ◌++◌, [], length, None};
ghost use Rattle.std.specs.Option.{option_to_list};

use crate::Bell;
use std::marker::Model;
use std::mem;

/// The bells of the tickets that a step answered, in the order of the answers, to be rung after the
/// account's lock is released. Nearly every step rings at most two: these lie in place, and only a step
/// that rings more hands out an allocation. Contracts see the list of the bells.
#[derive(Drop)]
pub struct Rings<B> {
    first: Option<B>,
    second: Option<B>,
    others: Vec<B>,
}

impl<B> Model for Rings<B> {
    ghost use Rattle.std.specs.Prelude.{List, ◌++◌};
    ghost use Rattle.std.specs.Option.{option_to_list};

    ghost Value = { List B };

    ghost view = { λ r. option_to_list r.first ++ option_to_list r.second ++ r.others.items };
}

impl<B> Rings<B> {
    /// Takes the bells that a step collected. Up to two are moved, so that the next step finds the memory of
    /// `collected`; more are handed out with it.
    pub(crate) fn take_all(collected: &mut Vec<B>) -> Rings<B>
        ensures bells { result ≡ collected.old.items }
        ensures none { collected.new.items ≡ [] }
    {
        let no_others = Vec::new(*collected.allocator());
        if collected.len() > 2 {
            return Rings {
                first: None,
                second: None,
                others: mem::replace(collected, no_others),
            };
        }
        let second = collected.pop();
        let first = collected.pop();
        Rings {
            first,
            second,
            others: no_others,
        }
    }

    /// Takes out the last bell; `None` if there is none. If the step has answered its own call, that is the call's bell,
    /// whose ticket is the newest.
    pub fn take_last(&mut self) -> Option<B>
        ensures taken { self.old ≡ self.new ++ option_to_list result }
        ensures none { result ≡ None → self.old ≡ [] }
    {
        if let Some(bell) = self.others.pop() {
            return Some(bell);
        }
        match self.second.take() {
            Some(bell) => Some(bell),
            None => self.first.take(),
        }
    }

    /// Returns whether there is no bell.
    pub fn is_empty(&self) -> bool
        ensures { result ≡ (length self.now == 0) }
    {
        self.first.is_none() && self.second.is_none() && self.others.is_empty()
    }
}

impl<B: Bell> Rings<B> {
    /// Rings the bells, in their order.
    pub fn ring(self) {
        let Rings {
            first,
            second,
            others,
        } = self;
        if let Some(bell) = first {
            bell.ring();
        }
        if let Some(bell) = second {
            bell.ring();
        }
        for bell in others {
            bell.ring();
        }
    }
}
