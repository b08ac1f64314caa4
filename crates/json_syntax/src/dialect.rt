//! Which JSON a parse takes.
ghost use Rattle.std.specs.Prelude.{◌≡◌, true, false};

/// The greatest depth of arrays and objects that a parse takes, whatever its options say. Each
/// level takes stack, and so many fit into the usual stack of 8 MB.
pub const MAX_DEPTH: usize = 2048;

/// What a text may have without an error. What is not allowed is still in the tree, as it would be
/// if it were allowed.
#[derive(Clone, Copy, PartialEq, Eq, Hash, Debug)]
pub struct Options {
    /// Comments, from `//` to the end of the line and from `/*` to `*/`.
    pub allows_comments: bool,
    /// A comma behind the last element of an array or the last member of an object.
    pub allows_trailing_commas: bool,
    /// In a string an escape from `\uD800` to `\uDFFF` that is no half of a pair, as `\uD834\uDD1E`
    /// is one. A string with it means no Unicode text.
    pub allows_lone_surrogates: bool,
    /// How deep arrays and objects may stand. What is deeper is one `Error` node to the end of the
    /// text. More than `MAX_DEPTH` counts as `MAX_DEPTH`.
    pub max_depth: usize,
}

impl Default for Options {
    ghost is_default = { λ options. options ≡ record {
      allows_comments = true;
      allows_trailing_commas = true;
      allows_lone_surrogates = true;
      max_depth = 512;
    } };

    /// JSON with comments and trailing commas, as editors take it, at most 512 deep.
    fn default() -> Options {
        Options {
            allows_comments: true,
            allows_trailing_commas: true,
            allows_lone_surrogates: true,
            max_depth: 512,
        }
    }
}

impl Options {
    /// JSON as RFC 8259 has it, at most 512 deep.
    pub fn strict() -> Options
        ensures { result ≡ record {
          allows_comments = false;
          allows_trailing_commas = false;
          allows_lone_surrogates = false;
          max_depth = 512;
        } }
    {
        Options {
            allows_comments: false,
            allows_trailing_commas: false,
            allows_lone_surrogates: false,
            max_depth: 512,
        }
    }

    /// The same with another depth.
    pub fn with_max_depth(self, max_depth: usize) -> Options
        ensures { result ≡ record {
          allows_comments = self.allows_comments;
          allows_trailing_commas = self.allows_trailing_commas;
          allows_lone_surrogates = self.allows_lone_surrogates;
          max_depth = max_depth;
        } }
    {
        Options { max_depth, ..self }
    }
}
