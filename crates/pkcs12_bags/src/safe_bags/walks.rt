//! All bags of a list, those in bags too.

ghost use Rattle.std.specs.Prelude.{◌≡◌, ◌++◌, MatchResult, map};
ghost use Rattle.asn1_core_element.specs.declared.error.Error.TheVariants.{Memory};
ghost use Rattle.pkcs12_bags.specs.BagValues.{bag_value, contents_value};
ghost use Rattle.pkcs12_bags.specs.BagWalks.{bag_walk, walk};

use crate::safe_bags::bags::{SafeBag, SafeBagKind, SafeContents};
use asn1_core::Error;
use std::alloc::Global;

impl SafeContents {
    /// All bags, those in bags too: a bag before the bags in it. Refuses by `Memory` alone.
    pub fn all_bags(&self, alloc: Global) -> Result<Vec<&SafeBag>, Error>
        ensures { MatchResult result (λ bags. map (λ bag. bag_value bag.now) bags.items ≡ walk (contents_value self.now)) (λ e. e ≡ Memory) }
    {
        let mut bags = Vec::new(alloc);
        self.add_bags_to(&mut bags)?;
        Ok(bags)
    }

    /// Appends what `all_bags` gives. Refuses by `Memory` alone; then some of them may have been appended.
    #[cycle(walk)]
    fn add_bags_to<'a>(&'a self, bags: &mut Vec<&'a SafeBag>) -> Result<(), Error>
        ensures { MatchResult result (λ _. map (λ bag. bag_value bag.now) bags.new.items ≡ map (λ bag. bag_value bag.now) bags.old.items ++ walk (contents_value self.now)) (λ e. e ≡ Memory) }
    {
        for bag in &self.0 {
            add_bag(bag, bags)?;
        }
        Ok(())
    }
}

/// Appends a bag, and then the bags in it.
#[cycle(walk)]
fn add_bag<'a>(bag: &'a SafeBag, bags: &mut Vec<&'a SafeBag>) -> Result<(), Error>
    ensures { MatchResult result (λ _. map (λ bag. bag_value bag.now) bags.new.items ≡ map (λ bag. bag_value bag.now) bags.old.items ++ bag_walk (bag_value bag.now)) (λ e. e ≡ Memory) }
{
    bags.push(bag)?;
    match &bag.kind {
        SafeBagKind::SafeContents(held) => held.add_bags_to(bags),
        _ => Ok(()),
    }
}
