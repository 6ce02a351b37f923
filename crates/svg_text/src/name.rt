//! The names of elements and attributes.
ghost use Rattle.std.specs.Prelude.{◌≡◌};
ghost use Rattle.svg_text.specs.Names.{element_text, attribute_text};

/// The name of an element.
#[derive(Clone, Copy, Debug, PartialEq, Eq)]
pub enum ElementName {
    /// `circle`
    Circle,
    /// `desc`
    Desc,
    /// `g`
    Group,
    /// `path`
    Path,
    /// `rect`
    Rect,
    /// `style`
    Style,
    /// `svg`
    Svg,
    /// `text`
    Text,
    /// `title`
    Title,
}

/// The name of an attribute.
#[derive(Clone, Copy, Debug, PartialEq, Eq)]
pub enum AttributeName {
    /// `class`
    Class,
    /// `cx`
    Cx,
    /// `cy`
    Cy,
    /// `d`
    D,
    /// `height`
    Height,
    /// `opacity`
    Opacity,
    /// `pointer-events`
    PointerEvents,
    /// `r`
    R,
    /// `role`
    Role,
    /// `shape-rendering`
    ShapeRendering,
    /// `text-anchor`
    TextAnchor,
    /// `transform`
    Transform,
    /// `viewBox`
    ViewBox,
    /// `width`
    Width,
    /// `x`
    X,
    /// `xmlns`
    Xmlns,
    /// `y`
    Y,
}

/// The text of the name.
pub(crate) fn element_name(name: ElementName) -> &'static str
    ensures { result.now ≡ element_text name }
{
    match name {
        ElementName::Circle => "circle",
        ElementName::Desc => "desc",
        ElementName::Group => "g",
        ElementName::Path => "path",
        ElementName::Rect => "rect",
        ElementName::Style => "style",
        ElementName::Svg => "svg",
        ElementName::Text => "text",
        ElementName::Title => "title",
    }
}

/// The text of the name.
pub(crate) fn attribute_name(name: AttributeName) -> &'static str
    ensures { result.now ≡ attribute_text name }
{
    match name {
        AttributeName::Class => "class",
        AttributeName::Cx => "cx",
        AttributeName::Cy => "cy",
        AttributeName::D => "d",
        AttributeName::Height => "height",
        AttributeName::Opacity => "opacity",
        AttributeName::PointerEvents => "pointer-events",
        AttributeName::R => "r",
        AttributeName::Role => "role",
        AttributeName::ShapeRendering => "shape-rendering",
        AttributeName::TextAnchor => "text-anchor",
        AttributeName::Transform => "transform",
        AttributeName::ViewBox => "viewBox",
        AttributeName::Width => "width",
        AttributeName::X => "x",
        AttributeName::Xmlns => "xmlns",
        AttributeName::Y => "y",
    }
}
