// Bytes that come in pieces, watched at one place. Only who began to watch knows which place that is, so what is proved of the byte there is proved of every byte.
#![tactic(auto)]

ghost use Rattle.std.specs.Prelude.{◌≡◌};
ghost use Rattle.watch.specs.Watches.{place_of, watch_at, watch_on};

#[derive(Clone, Copy)]
pub struct Watch {
    // the place, from 0
    place: u64,
    // bytes still to come before it
    left: u64,
    // the byte there, once it has come
    byte: Option<u8>,
}

impl Watch {
    #[tactic(auto, unfolding(crate::specs::Watches::watch_at))]
    pub fn at(place: u64) -> Watch
        ensures { result ≡ watch_at place }
    {
        Watch {
            place,
            left: place,
            byte: None,
        }
    }

    // The same place, before any byte.
    pub fn anew(self) -> Watch
        ensures { result ≡ watch_at (place_of self) }
    {
        Watch::at(self.place)
    }

    // After more bytes.
    #[tactic(auto, unfolding(crate::specs::Watches::watch_on, crate::specs::Watches::watch_by))]
    pub fn on(self, bytes: &[u8]) -> Watch
        ensures { result ≡ watch_on self bytes.now }
    {
        let None = self.byte else {
            return self;
        };
        match bytes.get(self.left as usize) {
            Some(&byte) => Watch {
                left: 0,
                byte: Some(byte),
                ..self
            },
            None => Watch {
                left: self.left - bytes.len() as u64,
                ..self
            },
        }
    }
}
