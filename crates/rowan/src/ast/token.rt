//! The traits of wrappers of tokens: of owned ones, and of those that are borrowed from their tree.
ghost use Rattle.std.specs.Prelude.{◌≡◌, Bool, true};
ghost use Rattle.std.specs.Option.{option_map};
ghost use Rattle.rowan_api.specs.Refs.{token_place};
ghost use Rattle.rowan_table.specs.Cursor.{Cursor, text_at};
ghost use Rattle.rowan.specs.Ast.{casts_at, if_casts};

use crate::api::{Language, SyntaxToken, SyntaxTokenRef};

/// A wrapper of the tokens of some kinds of a language: of those whose text means something, as a
/// name, a number or a string. It is as cheap as the token itself.
///
/// The ghost members are what contracts see: `casts`, which kinds cast to the wrapper, and
/// `token_of`, the token in it.
pub trait AstToken {
    /// The language of the tokens.
    type Language: Language;

    ghost casts: { Self.Language.Kind → Bool };

    ghost token_of: { Self → Cursor };

    /// Whether tokens of this kind cast.
    fn can_cast(kind: <Self::Language as Language>::Kind) -> bool
        ensures { result ≡ casts kind };

    /// The wrapper of a token, or `None` where its kind does not cast.
    fn cast(token: SyntaxToken<Self::Language>) -> Option<Self>
        ensures { let casting = casts_at Self.Language.meaning casts in
            option_map token_of result ≡ if_casts casting token };

    /// The token in it, whose kind casts.
    fn syntax(&self) -> &SyntaxToken<Self::Language>
        ensures token { result.now ≡ token_of self.now }
        ensures casts { casts_at Self.Language.meaning casts result.now ≡ true };

    /// The text of the token.
    fn text(&self) -> &str
        ensures { result.now ≡ text_at (token_of self.now) }
    {
        self.syntax().text()
    }
}

/// A wrapper of the tokens of some kinds of a language, which are borrowed from their tree. Its
/// calls cannot fail, and its text lives as long as the tree.
pub trait AstTokenRef<'tree>: Copy {
    /// The language of the tokens.
    type Language: Language;

    ghost casts: { Self.Language.Kind → Bool };

    ghost token_of: { Self → Cursor };

    /// Whether tokens of this kind cast.
    fn can_cast(kind: <Self::Language as Language>::Kind) -> bool
        ensures { result ≡ casts kind };

    /// The wrapper of a token, or `None` where its kind does not cast.
    fn cast(token: SyntaxTokenRef<'tree, Self::Language>) -> Option<Self>
        ensures { let casting = casts_at Self.Language.meaning casts in
            option_map token_of result ≡ if_casts casting (token_place token.entry) };

    /// The token in it, whose kind casts.
    fn syntax(&self) -> SyntaxTokenRef<'tree, Self::Language>
        ensures token { token_place result ≡ token_of self.now }
        ensures casts { casts_at Self.Language.meaning casts (token_place result) ≡ true };

    /// The text of the token.
    fn text(&self) -> &'tree str
        ensures { result.now ≡ text_at (token_of self.now) };
}
