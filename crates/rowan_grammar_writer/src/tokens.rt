//! The wrappers of tokens whose text means something, as source text.
use crate::writer::{Scope, Text, add_cast_head, add_docs, fill, kind_test};
use rowan_grammar_model::forms::Form;
use rowan_grammar_model::grammar::Item;

/// What wrappers of tokens are: a type for each number of a kind.
const TOKEN_OF: &str = "
/// A token whose kind has this number.
#[derive(Clone, PartialEq, Eq, Hash, Drop)]
pub struct TokenOf<const KIND: u16> {
    syntax: @SyntaxToken<$language>,
}

impl<const KIND: u16> @Model for TokenOf<KIND> {
    ghost use Rattle.std.specs.Prelude.{◌≡◌, true};
    ghost use Rattle.rowan.specs.Cursor.{Cursor};
    ghost use Rattle.rowan.specs.CursorCode.{coded_cursor};
    ghost use Rattle.rowan.specs.Ast.{casts_at};
    ghost use Rattle.$crate.specs.Casts.{has_number};
    ghost use Rattle.$crate.specs.Kinds.{kind_of};

    ghost Value = { Cursor };

    ghost coded = { coded_cursor };

    ghost view = { λ wrapper. wrapper.syntax };

    ghost inverse = { λ token. record { syntax = token } };

    ghost invariant = { λ wrapper. casts_at kind_of (has_number KIND) wrapper.syntax ≡ true };
}

impl<const KIND: u16> @AstToken for TokenOf<KIND> {
    type Language = $language;

    ghost use Rattle.std.specs.Prelude.{◌≡◌};
    ghost use Rattle.std.specs.Option.{option_map};
    ghost use Rattle.rowan.specs.Ast.{casts_at, if_casts};
    ghost use Rattle.$crate.specs.Casts.{has_number};
    ghost use Rattle.$crate.specs.Kinds.{kind_of};

    ghost casts = { has_number KIND };

    ghost token_of = { λ wrapper. wrapper };

    fn can_cast(kind: Kind) -> bool {
$test
    }

$cast
        ensures { let casting = casts_at kind_of (has_number KIND) in
            option_map (λ wrapper. wrapper) result ≡ if_casts casting syntax }
    {
        if Self::can_cast(syntax.kind()) {
            Some(TokenOf { syntax })
        } else {
            None
        }
    }

    fn syntax(&self) -> &@SyntaxToken<$language> {
        &self.syntax
    }
}

impl<const KIND: u16> TokenOf<KIND> {
    ghost use Rattle.std.specs.Prelude.{◌≡◌};
    ghost use Rattle.$crate.specs.NodeIn.{token_in};

    /// The same token, borrowed from its tree.
    pub fn as_ref(&self) -> TokenOfRef<'_, KIND>
        ensures { token_in result ≡ self.now }
    {
        TokenOfRef {
            syntax: self.syntax.as_ref(),
        }
    }
}

impl<const KIND: u16> std::fmt::Debug for TokenOf<KIND> {
    fn fmt<W: std::fmt::Write>(&self, f: &mut std::fmt::Formatter<W>) -> std::fmt::Result {
        self.syntax.fmt(f)
    }
}
";

/// The same of borrowed ones.
const TOKEN_OF_REF: &str = "
/// A token whose kind has this number, borrowed from its tree.
#[derive(Clone, Copy, PartialEq, Eq, Hash)]
pub struct TokenOfRef<'tree, const KIND: u16> {
    syntax: @SyntaxTokenRef<'tree, $language>,
    ghost casts: { casts_at kind_of (has_number KIND) (token_place syntax) ≡ true },
}

impl<'tree, const KIND: u16> @AstTokenRef<'tree> for TokenOfRef<'tree, KIND> {
    type Language = $language;

    ghost use Rattle.std.specs.Prelude.{◌≡◌, true};
    ghost use Rattle.std.specs.Option.{option_map};
    ghost use Rattle.rowan.specs.Ast.{casts_at, if_casts};
    ghost use Rattle.rowan.specs.Cursor.{text_at};
    ghost use Rattle.rowan.specs.Refs.{token_place};
    ghost use Rattle.$crate.specs.Casts.{has_number};
    ghost use Rattle.$crate.specs.Kinds.{kind_of};
    ghost use Rattle.$crate.specs.NodeIn.{token_in};

    ghost casts = { has_number KIND };

    ghost token_of = { token_in };

    fn can_cast(kind: Kind) -> bool
        ensures { result ≡ has_number KIND kind }
    {
$test
    }

$borrowed
        ensures { let casting = casts_at kind_of (has_number KIND) in
            option_map token_in result ≡ if_casts casting (token_place syntax.entry) }
    {
        if Self::can_cast(syntax.kind()) {
            Some(TokenOfRef { syntax })
        } else {
            None
        }
    }

    fn syntax(&self) -> @SyntaxTokenRef<'tree, $language>
        ensures token { token_place result ≡ token_in self.now }
        ensures casts { casts_at kind_of (has_number KIND) (token_place result) ≡ true }
    {
        self.syntax
    }

    fn text(&self) -> &'tree str
        ensures { result.now ≡ text_at (token_in self.now) }
    {
        self.syntax.text()
    }
}

impl<'tree, const KIND: u16> TokenOfRef<'tree, KIND> {
    ghost use Rattle.std.specs.Prelude.{◌≡◌, IfOk, IfErr};
    ghost use Rattle.$crate.specs.NodeIn.{token_in};

    /// The same token in a wrapper that keeps the tree. Refused with `Memory` alone.
    pub fn to_owned(&self) -> @Result<TokenOf<KIND>, Fault>
        ensures ok { IfOk result (λ owned. owned ≡ token_in self.now) }
        ensures err { IfErr result (λ e. e ≡ Fault.Memory) }
    {
        let syntax = self.syntax.to_owned()?;
        Ok(TokenOf { syntax })
    }
}

impl<const KIND: u16> std::fmt::Debug for TokenOfRef<'_, KIND> {
    fn fmt<W: std::fmt::Write>(&self, f: &mut std::fmt::Formatter<W>) -> std::fmt::Result {
        self.syntax.fmt(f)
    }
}
";

/// The names of the wrappers of one kind.
const TOKEN: &str = "\
pub type $name = TokenOf<$number>;

/// [`$name`], borrowed from its tree.
pub type $borrowed<'tree> = TokenOfRef<'tree, $number>;
";

/// The types that wrappers of tokens are.
pub fn add_token_types(out: &mut Text, scope: &Scope<'_>) {
    let test = kind_test(scope);
    let mut cast = Text::new(scope.alloc);
    add_cast_head(
        &mut cast,
        scope,
        "SyntaxToken",
        Form::Owned,
        "TokenOf<KIND>",
    );
    let mut borrowed = Text::new(scope.alloc);
    let into = "TokenOfRef<'tree, KIND>";
    add_cast_head(&mut borrowed, scope, "SyntaxTokenRef", Form::Borrowed, into);
    let values = [
        "crate",
        scope.crate_name,
        "language",
        scope.language,
        "cast",
        out.read(&cast),
        "borrowed",
        out.read(&borrowed),
        "test",
        out.read(&test),
    ];
    scope.fill(out, TOKEN_OF, &values);
    scope.fill(out, TOKEN_OF_REF, &values);
}

/// The wrappers of a token.
pub fn add_token(out: &mut Text, scope: &Scope<'_>, item: &Item, index: usize) {
    out.add("\n");
    add_docs(out, "", item.docs.as_str(), "");
    let number = scope.number(scope.kind_number(index));
    let values = [
        "name",
        item.name.as_str(),
        "borrowed",
        item.borrowed.as_str(),
        "number",
        out.read(&number),
    ];
    fill(out, TOKEN, &values);
}
