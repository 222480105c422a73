// A set of links, by their numbers.
ghost use Rattle.std.specs.Prelude.{◌≡◌, ◌+◌, ◌<◌, [], ◌∷◌, ◌++◌, length};

use block::head::MAX_LINKS;

// Some of the links: a bit for each.
#[derive(Clone, Copy)]
pub struct LinkSet(u32);

impl LinkSet {
    ghost use Rattle.steps.specs.LinkSets.{has_link, links_of, AllBelow};

    // None of them.
    pub fn none() -> LinkSet
        ensures none { links_of result ≡ [] }
        ensures below { AllBelow result 0 }
    {
        LinkSet(0)
    }

    // With a link behind all that are in it.
    pub fn with(self, link: usize) -> LinkSet
        requires { AllBelow self link × (link < MAX_LINKS) }
        ensures more { links_of result ≡ links_of self ++ link ∷ [] }
        ensures below { AllBelow result (link + 1) }
    {
        LinkSet(self.0 | 1 << link)
    }

    // Whether a link is in it.
    pub fn contains(self, link: usize) -> bool
        requires { link < MAX_LINKS }
        ensures { result ≡ has_link self link }
    {
        self.0 >> link & 1 == 1
    }

    // How many are in it.
    pub fn len(self) -> usize
        requires { AllBelow self MAX_LINKS }
        ensures { result ≡ length (links_of self) }
    {
        self.0.count_ones() as usize
    }
}
