//! Well-known games, and what the file of each states.

ghost use Rattle.std.specs.Prelude.{◌≡◌, map};
ghost use Rattle.gs_words.specs.Made.{ante_of, ranking_word, three_numbers, rounds_of};

/// A well-known game.
#[derive(Clone, Copy)]
pub enum Kind {
    /// Kuhn poker: one card each, one round of bets, the higher rank wins.
    Kuhn,
    /// Leduc hold'em: one card each, then one public card, and a pair with it wins.
    Leduc,
    /// Rhode Island hold'em: one card each, then two public cards one after the other, and the best hand of three cards wins.
    Rhode,
}

/// A round: its private cards for each player, its public cards, and its bet in chips.
#[derive(Clone, Copy)]
pub(crate) struct Round {
    pub(crate) private: u8,
    pub(crate) public: u8,
    pub(crate) bet: u8,
}

static KUHN: [Round; 1] = [Round {
    private: 1,
    public: 0,
    bet: 1,
}];

static LEDUC: [Round; 2] = [
    Round {
        private: 1,
        public: 0,
        bet: 2,
    },
    Round {
        private: 0,
        public: 1,
        bet: 4,
    },
];

static RHODE: [Round; 3] = [
    Round {
        private: 1,
        public: 0,
        bet: 10,
    },
    Round {
        private: 0,
        public: 1,
        bet: 20,
    },
    Round {
        private: 0,
        public: 1,
        bet: 20,
    },
];

impl Kind {
    /// Returns the word for the ranking of hands.
    pub(crate) fn ranking(self) -> &'static str
        ensures { result.now ≡ ranking_word self }
    {
        match self {
            Kind::Kuhn => "high",
            Kind::Leduc => "pair",
            Kind::Rhode => "three",
        }
    }

    /// Returns the ante of each player, in chips.
    pub(crate) fn ante(self) -> u8
        ensures { result ≡ ante_of self }
    {
        match self {
            Kind::Kuhn | Kind::Leduc => 1,
            Kind::Rhode => 5,
        }
    }

    /// Returns the rounds in order.
    pub(crate) fn rounds(self) -> &'static [Round]
        ensures { map three_numbers result.now ≡ rounds_of self }
    {
        match self {
            Kind::Kuhn => &KUHN,
            Kind::Leduc => &LEDUC,
            Kind::Rhode => &RHODE,
        }
    }
}
